//! What statements of a program in the high form become in the low form: blocks, and the loops among them.
//!
//! A function is made from its end, so that a jump knows its goal. `Emitter` holds the block that is being made, its
//! instructions last one first, and the blocks behind it, the last one first; so all of them are only pushed.
//!
//! Proved: `body` makes the piece that `lower_definition` defines of a function's body, or memory ran out. Each statement is visited
//! once.
//!
//! This crate knows nothing of how functions are ordered and how arrays are passed.
#![tactic(auto)]

mod coding;
pub mod emitter;
mod walk;

pub use coding::place_in;
pub use emitter::Emitter;
pub use walk::body;
