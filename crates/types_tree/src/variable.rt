use c_tree::expression::NameId;
use types_value::Kind;

/// How many values an object holds.
#[derive(Clone, Copy)]
pub enum Extent {
    Scalar,
    /// An array of so many elements.
    Array(u32),
    /// The array that a call hands over.
    Parameter,
}

/// How long an object lives (C11 6.2.4): as long as the program, or within its block.
#[derive(Clone, Copy)]
pub enum Duration {
    Static,
    Automatic,
}

/// What is declared of an object.
#[derive(Clone, Copy)]
pub struct Variable {
    pub name: NameId,
    pub kind: Kind,
    pub extent: Extent,
    pub duration: Duration,
}
