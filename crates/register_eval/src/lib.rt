//! An evaluator of programs over places.
//!
//! Proved: [`evaluate`] answers how far the run of a program over the places of its registers is after so
//! many steps, whether they are machine registers or slots. It is the definition's own program, for tests.
//!
//! This crate knows no layout and no source language, and not what is live.
#![tactic(auto)]

mod evaluation;
mod file;
mod running;
mod stack;
mod table;

pub use evaluation::evaluate;
