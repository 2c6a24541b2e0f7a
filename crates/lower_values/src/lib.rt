//! Operators and expressions in the low form: the code that `lower_definition` makes of an expression finds its value.
//!
//! `specs/` says what code that only computes leaves of a bank of registers (`Computing`), how a state of the high form
//! stands in registers and arrays of the low form (`Meeting`), and the laws (`Laws`). Proved, as contracts of functions without
//! a body: [`unary_code_computes`] and [`binary_code_computes`], that the instructions of an operator compute what the high
//! form says of it; and [`expressions_are_found`]. `proofs/` has the same of the registers that accesses share (`Shares`)
//! and of what a call is given (`Passing`).
//!
//! This crate knows no statement and no run.
#![tactic(auto)]

mod laws;

pub use laws::{binary_code_computes, expressions_are_found, unary_code_computes};
