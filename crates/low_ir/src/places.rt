// Programs whose registers have places.
ghost use Rattle.std.specs.Prelude.{map};
ghost use Rattle.low_ir.specs.Programs.{low_of};
ghost use Rattle.low_ir.specs.Places.{assignment, placing_of};
ghost use Rattle.low_ir.specs.Spacing.{IsAssignment};

use super::low::Low;

/// Where the values of a virtual register stand: in one of 24 machine registers, in the result register, which has the number 24
/// and holds nothing over calls, or in a slot of the frame.
#[derive(Clone, Copy)]
pub enum Place {
    Register(u8),
    Slot(u32),
}

/// The places of one function.
#[derive(Drop)]
pub struct Placing {
    /// By virtual register.
    pub places: Vec<Place>,
    /// By place of the code: the machine registers that the call there keeps, register q by the bit of
    /// value 2^q; where the list is shorter, none.
    pub kept: Vec<u32>,
    /// The number of its slots.
    pub slots: u32,
}

/// A program with a place for each register; registers that live together have different places.
#[derive(Drop)]
pub struct LowReg {
    pub low: Low,
    /// By function.
    pub placings: Vec<Placing>,
    ghost is_assignment: { IsAssignment (assignment (map placing_of placings.items)) (low_of low) },
}
