//! Folding: the pass that computes what is known of a program in the high form.
//!
//! Proved: [`Fold`] makes the program that `high_folded` defines, with the copies that it lists; so it is lawful, as
//! `high_pass` asks of each pass, and no operator is left over constants, none that gives back its operand as its form tells,
//! and no choice with a constant test. Each statement is visited at most once.
//!
//! This crate knows nothing of runs, no other pass, no source language and no machine.
#![tactic(auto)]

mod copies;
mod expressions;
mod fold;
mod operators;
mod program;
mod ranges;
mod statements;

pub use fold::Fold;
