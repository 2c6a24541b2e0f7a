//! The rules of types and names, each a statement on one node and the declarations that are visible there
//! (C11 6.2.1, 6.5 to 6.9), and the typed tree of a unit that keeps them.
//!
//! `specs/` is read from the top: what specifiers spell, what is visible at a node, constants and types of
//! expressions, the rules in groups, the nodes of a unit in source order with what is visible at each, the
//! first of them at which a rule fails, the typed tree, the limits, and which unit has a typed tree, and why
//! another has none.
//!
//! This crate has definitions and the types that they speak of; it knows no walk and no table.
#![tactic(auto)]

pub mod constant;
pub mod fault;
mod operations;
pub mod scope;
mod specifiers;

pub use constant::{Folded, constant_word};
pub use fault::{Fault, Rule, TypeFault};
pub use operations::{
    constant_kind, left_kind, operator_of, right_kind, sign_kind, sign_of, update_of, value_kind,
};
pub use specifiers::{are_wrong, is_const, kind_spelled};
