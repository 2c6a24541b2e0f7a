//! How an operand begins, and how a token goes on with it: levels, roles and the steps of the machine
//! of `parse_grammar` that take an operator.
//!
//! This crate knows nothing of what an operand stands in once it has ended.
#![tactic(auto)]

pub mod demand;
pub mod operand;
pub mod role;
