//! An evaluator of programs in the low form.
//!
//! Proved: [`evaluate`] answers how far the run of a program on an input is after so many steps. It is
//! the definition's own program, for tests: it keeps each block that a run passes. What doesn't depend on where values
//! stand is there for the evaluator over places too.
//!
//! This crate knows no layout and no source language.
#![tactic(auto)]

mod bank;
mod cells;
mod evaluation;
mod running;
mod stack;
mod world;

pub use bank::{Located, pointer_within, word_of};
pub use evaluation::{Evaluated, Outcome, evaluate};
pub use running::{Progress, chosen, next};
pub use world::World;
