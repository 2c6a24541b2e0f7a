//! The program of a source in the high form.
//!
//! Proved: `make` answers the plan that `plan_definition` defines, with each mark and each loop of the source as its one copy, or
//! memory ran out. By `plan_law` each run of the source that is kept is a good run of that program with the same output,
//! value and counts, what the bounds allow the program to do is at most 16 times what they allow the source to do, and the
//! program is within the budgets of passes. It has at most six operations for each node of the source's tree.
//! Statements are visited twice: for the copies of loops, and for their code.
//!
//! This crate knows no pass.
#![tactic(auto)]

mod copies;
mod made;

pub use made::make;
