//! Makes the lines of regions of a laid program: of what its loads and stores touch, line by line.
//!
//! `walks` puts what an item touches at the item's address, and `merging` joins neighbours that touch the same.
//!
//! Proved: the lines are those that `claims_definition` defines of each laid program that has this code and layout, whose
//! items touch what is handed in, or memory ran out. Time and memory are linear in items.
//!
//! The crate knows no instruction, and not which items touch memory.
#![tactic(auto)]

mod merging;
mod regions;
mod walks;

pub use regions::region_lines;
pub use walks::Touched;
