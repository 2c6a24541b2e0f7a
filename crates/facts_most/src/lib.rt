//! The words of constants, how often a loop starts, and how often the nodes of a program are executed at most (C11 6.6, 6.8.5).
//!
//! Proved: `is_constant`, `word`, `is_always`, `leaves`, `starts` and `most_of_functions` answer what `facts_definitions` defines; counts are cut at 2^64 - 1. Each node is
//! visited once, since a function comes behind those that it calls.
//!
//! This crate knows nothing of pragmas: it is given the bounds of the loops by their numbers.
#![tactic(auto)]

mod constant;
mod declared;
mod executed;
mod functions;
mod leaving;
mod sums;

pub use constant::{is_always, is_constant, word};
pub use functions::most_of_functions;
pub use leaving::{leaves, starts};
