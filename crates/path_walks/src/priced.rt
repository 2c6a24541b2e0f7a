// What a walk goes by.

use code_flow_system::{LoopShape, System};

/// A system with its loops, in the order of the claims, and the prices of its moves, in their order.
#[derive(Clone, Copy)]
pub struct Priced<'a> {
    pub system: &'a System,
    pub shapes: &'a [LoopShape],
    pub prices: &'a [i128],
    /// The worth of a block.
    pub low: i128,
}
