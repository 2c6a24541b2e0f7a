//! The loops of a typed program, fillings of lists included, with the numbers that they have in the plan.
//!
//! A loop keeps its number, but that of a `for` stands behind the fillings in its head.
//!
//! Proved: `loops_of` lists each loop of the functions once, in source order, with both numbers (`specs/Numbers`), or memory
//! ran out; `loops_before` is the number of fillings that `plan_definition` defines. Each statement is visited once.
//!
//! This crate knows no code of the plan.
#![tactic(auto)]

mod before;
mod renumbered;
mod walk;

pub use before::loops_before;
pub use renumbered::Renumbered;
pub use walk::loops_of;
