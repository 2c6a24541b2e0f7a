// A program that is laid.
use claims_definition::LaidItem;
use claims_lists::CodeRange;
use code_flow_system::{Claims, LoopShape, Span};
use rv_core::Image;
use wcc_base::Items;

/// What is claimed of the code of a program.
#[derive(Drop)]
pub struct Claimed {
    pub claims: Claims,
    /// By loop claim.
    pub shapes: Vec<LoopShape>,
}

/// How the code and the arrays of a program lie.
#[derive(Drop)]
pub struct Lists {
    /// By function, callees first and the start code last.
    pub spans: Vec<Span>,
    /// The code of functions, in the order of addresses.
    pub ranges: Vec<CodeRange>,
    /// By mark, the addresses of its blocks, in ascending order.
    pub places: Vec<Items<u32>>,
    /// What may be moved into the scratchpad: the functions, and then the arrays that aren't local.
    pub items: Vec<LaidItem>,
}

/// A program in memory.
#[derive(Drop)]
pub struct Laid {
    pub image: Image,
    pub claimed: Claimed,
    pub lists: Lists,
}
