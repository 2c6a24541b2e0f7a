//! The typed tree: a source's tree with its types and conversions written in (C11 6.3, 6.5, 6.7).
//!
//! It has a node for each node of the source's tree, and besides a node for each conversion that C implies.
//! Objects, functions, loops and markers stand by number, each in source order. `&&`, `||` and `,` stand
//! apart from the operators that evaluate both operands, and what is assigned or stepped is a place of its own.
//! `specs/Tree` is the tree without pointers.
//!
//! This crate knows no rule: that a tree is rightly typed is said above.
#![tactic(auto)]

pub mod declaration;
pub mod expression;
pub mod external;
pub mod program;
pub mod statement;
pub mod variable;
