//! Passes over programs in the high form, and one pass after another.
//!
//! Proved of every [`Pass`]: where the old program's run is good, the new one's is, with the same
//! output and value, and each old count is the sum of the counts of its copies (`specs/Carries`); what
//! it makes is no larger than its budgets, does no more, has words for constants, and keeps functions and
//! objects (`specs/Law`). Proved of [`chain`]: what held from a first program on holds through one more pass,
//! and the copies are the copies of copies (`specs/Composing`).
//!
//! This crate knows no pass, no source language and no machine.
#![tactic(auto)]

mod chaining;
mod compose;
pub mod origin;
mod pass;

pub use chaining::{Chained, chain};
pub use pass::Pass;
