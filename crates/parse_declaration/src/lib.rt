//! How a declaration goes on with a token: the steps of the machine of `parse_grammar` within the specifiers of
//! a declaration, its objects, and the parameters of a function.
//!
//! This crate knows nothing of statements, nor of how an expression goes on once it has begun.
#![tactic(auto)]

pub mod object;
pub mod parameter;
pub mod specifiers;
