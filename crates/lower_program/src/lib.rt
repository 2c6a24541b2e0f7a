//! Statements, functions and whole programs in the low form: the code that `lower_definition` makes of them does what they do.
//!
//! `specs/` says what it means that a run follows a statement (`Following`), what is claimed (`Claims`), and what a program keeps
//! (`Kept`). Proved: [`statements_are_followed`] and [`functions_do`], and so [`runs_are_kept`], that good runs of the high form are
//! good runs of it; the contracts of functions without a body.
//!
//! This crate knows no machine.
#![tactic(auto)]

mod laws;

pub use laws::{functions_do, runs_are_kept, statements_are_followed};
