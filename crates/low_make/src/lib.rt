//! The program in the low form that a program in the high form becomes.
//!
//! The functions that calls reach from main come in an order in which each stands behind those that it calls (`order`);
//! callers before those that they call say which arrays are passed (`passing`); then each function is made (`functions`).
//!
//! Proved: `lower` makes the program that `lower_definition` defines, or memory ran out. By `lower_law` each good run of the program in
//! the high form is a good run of it with the same output, value and marks; it has the functions, loops and arrays that
//! calls reach from main; and it takes, and may execute, at most so many machine instructions.
//!
//! This crate knows no machine register and no address.
#![tactic(auto)]

mod claims;
mod functions;
mod lowering;
mod noting;
mod order;
mod passing;
mod program;

pub use lowering::lower;
