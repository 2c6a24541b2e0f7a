//! The parts of the program in the high form that a typed program becomes: where its objects live, their first values,
//! and its functions.
//!
//! Proved: `program` answers the parts of the program that `plan_definition` defines, or memory ran out. Each object and each
//! function is visited once.
//!
//! This crate knows no pass, and nothing of copies.
#![tactic(auto)]

mod frames;
mod functions;
mod givens;
mod homes;
mod objects;
mod planning;

pub use planning::{Planned, program};
