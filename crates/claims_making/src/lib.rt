//! Makes the claims of a laid program: its exits, the regions of its loads and stores, and the bounds of its loops.
//!
//! `sights` has the regions of the arrays of each claim, `touched` the regions of what each item touches, and `claims`
//! puts the lists of claims together.
//!
//! Proved: [`claims_of`] makes the claims that `claims_definition` defines of each laid program that has this code and layout,
//! whose arrays lie in these regions and whose items touch what is handed in. Memory may run out, and 2^32 claims count
//! as that. Time and memory are linear in items, loops and the arrays of claims.
//!
//! The crate knows no instruction.
#![tactic(auto)]

mod claims;
mod sights;
mod touched;

pub use claims::claims_of;
pub use touched::touched_by;
