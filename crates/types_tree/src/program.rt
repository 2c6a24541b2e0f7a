use super::external::{External, Function};
use super::variable::Variable;
use wcc_base::Text;

/// A typed tree, at the place of the unit's first token.
#[derive(Drop)]
pub struct Program {
    pub items: Vec<External>,
    /// The functions in the order of their numbers.
    pub functions: Vec<Function>,
    /// The objects in the order of their numbers.
    pub variables: Vec<Variable>,
    pub names: Vec<Text>,
    pub at: u32,
}
