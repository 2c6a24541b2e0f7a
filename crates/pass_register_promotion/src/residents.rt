// Scalars that have registers.
use low_ir::object::Kind;

/// A scalar that has a register in a function, its kind, and whether the function stores to it.
#[derive(Clone, Copy)]
pub struct Resident {
    /// Its number among the arrays of the program.
    pub object: u32,
    pub kind: Kind,
    pub written: bool,
}
