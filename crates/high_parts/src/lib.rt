//! Objects and marks that a pass leaves as they are.
//!
//! Proved: each function makes the objects or the entries of marks that its name says, or memory ran out. `proofs/` has what each
//! pass needs of marks that stay: that they are listed, each once, and that runs which are the same show the same.
//!
//! This crate knows no pass, no source language and no machine.
#![tactic(auto)]

pub mod marks;
pub mod objects;
