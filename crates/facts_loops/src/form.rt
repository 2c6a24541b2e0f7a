use facts_definitions::Bounds;
use types_value::Operator;

/// The comparison of what counts with a constant.
#[derive(Clone, Copy)]
pub struct Limit {
    pub operator: Operator,
    pub word: u32,
}

/// A loop at the place of its keyword, and the bounds that are derived for it, where it is a counting loop without a pragma.
#[derive(Clone, Copy)]
pub struct LoopForm {
    pub number: u32,
    pub at: u32,
    pub derived: Option<Bounds>,
}
