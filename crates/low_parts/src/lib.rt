//! Parts of a program in the low form, as passes over it make and count them.
//!
//! Proved: what an instruction writes is found (`accesses`), instructions, blocks, loops and lists of registers are written anew as they are (`same`), a program goes on with other
//! functions (`programs`), and what code takes and how often its blocks start are the numbers of `low_ir/specs/Room` wherever
//! they fit into 64 bits (`rooms`). `proofs/Lists` has what stands in two lists beside each other, and how loops fill them.
//!
//! This crate knows no pass. One instruction more in the low form changes it, and no copy of it.
#![tactic(auto)]

pub mod accesses;
pub mod kinds;
pub mod programs;
pub mod rooms;
pub mod same;
