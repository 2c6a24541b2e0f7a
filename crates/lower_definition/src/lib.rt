//! The plan of the program in the low form that a program in the high form becomes.
//!
//! `specs/` is the translation as a definition: arrays (`Objects`), what operators become
//! (`Operators`), expressions and tests (`Values`), which functions are called and which arrays are
//! passed (`Calls`), statements (`Statements`), functions and programs (`Programs`). Expressions
//! are computed into registers of their own, where they are neither variables nor constants; a test
//! becomes a branch; an index is scaled once for each statement.
//!
//! This crate knows no meaning, no machine register and no address.
#![tactic(auto)]

mod laws;

pub use laws::example_is_lowered;
