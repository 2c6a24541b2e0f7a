//! The steps of the machine of `parse_grammar` over statements, the items between braces and file level: how
//! a statement begins, what stands in its head, and what a token does once it has ended.
//!
//! Each public function is the step of one state. This crate knows nothing of what an operand stands in
//! once it has begun, nor of what stands in a declaration.
#![tactic(auto)]

pub mod begins;
pub mod heads;
pub mod items;
mod said;
pub mod settle;
