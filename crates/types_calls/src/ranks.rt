use thiserror::Error;
use types_tree::expression::FunctionId;
use wcc_base::Items;

/// The rank of each defined function, in the order of their definitions: the greatest number of calls of defined
/// functions in a chain of calls that begins at it.
#[derive(Drop)]
pub struct Ranks {
    pub of_functions: Items<u32>,
}

/// Why there are no ranks.
#[derive(Debug, Drop, Error)]
pub enum CallFault {
    #[error("a function reaches itself by calls")]
    Recursion { function: FunctionId },
    #[error("out of memory")]
    Memory,
}
