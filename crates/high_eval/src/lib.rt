//! An evaluator of programs in the high form.
//!
//! Proved: [`evaluate`] answers the good run of a program on an input, or says that its run there is
//! not good. It is the definition's own program, for tests: it keeps each mark that a run passes.
//!
//! This crate knows no pass and no source language.
#![tactic(auto)]

mod cells;
mod evaluation;
mod frame;
mod state;
mod statements;
mod value;

pub use evaluation::{Evaluated, evaluate};
