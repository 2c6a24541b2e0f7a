//! Pieces of the program in the high form that a typed tree becomes, as the translation puts them together.
//!
//! `Code` is a list of statements, `Valued` code and the value that it leaves, `Target` an element or a variable.
//! `specs/View` sees each without where it lies in memory.
//!
//! Proved: every function makes the piece that `plan_definition` defines, or memory ran out. A piece is moved into the one
//! that it becomes a part of, and never copied; numbers past 32 bits are answered as want of memory.
//!
//! This crate knows no tree of the source.
#![tactic(auto)]

pub mod changes;
pub mod code;
pub mod expr;
pub mod homes;
pub mod numbers;
pub mod operators;
pub mod statements;
pub mod valued;

pub use code::Code;
pub use expr::Leaf;
pub use homes::{Aimed, Target};
pub use valued::{Steady, Valued};
