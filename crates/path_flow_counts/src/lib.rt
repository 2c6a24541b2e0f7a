//! The flow of a system's longest ways, in 128 bits (Li and Malik 1995, implicit path enumeration; no linear program is
//! solved).
//!
//! [`flow`] goes through the functions of a system, a caller before those that it calls. A function hands on what starts
//! it, by the worths that the walks found when no later function was settled yet: these come back as the places of the
//! functions behind it are put back to what they were at first. [`cost_flow`] does so at the costs of moves.
//!
//! Proved: the moves that are listed, and how often each is made, are those of the definitions of `path_flows`, at any
//! prices. Counts are modulo 2^128 in between, so that it is enough that each move's count fits in the end. Each step is
//! handed on once for each loop around it, and places are found by halving.
//!
//! The crate knows nothing of certificates, and of where prices come from.
#![tactic(auto)]

mod costs;
mod function;
mod parts;
mod put;
mod sums;
mod system;
mod tally;

pub use costs::{Costed, cost_flow};
pub use parts::push_part;
pub use system::flow;
