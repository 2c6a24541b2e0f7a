//! The dataflow solution of a sketch: by which facts its code can be followed.
//!
//! It is found of which registers something has to be known as blocks begin (`needs`), and what is known there, in the way in which
//! the checker finds it (`knowing`, `stating`).
//!
//! Nothing is proved of it but that it is safe and ends: facts are right that are checked.
//!
//! The crate knows no choice and no checker.
#![tactic(auto)]

mod knowing;
pub mod needs;
pub mod stating;
