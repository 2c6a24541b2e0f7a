//! Finds the counting loops of a program, and the bounds that their form gives (C11 6.8.5.3).
//!
//! What a counting loop is, clause by clause, says `facts_loops`.
//!
//! Proved: [`derive`] answers exactly the counting loops that have no pragma, in the order of the source, each with its bounds.
//!
//! This crate knows nothing of how a program is run.
#![tactic(auto)]

mod changing;
mod counting;
mod finding;
mod turns;

pub use finding::derive;
