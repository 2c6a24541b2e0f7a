//! Makes what the items of a program over places touch: no memory, a word of a frame, an array, or the arrays of a
//! claim.
//!
//! `touch` says what an item touches by itself, `instrs` what the items of an instruction touch, `blocks` those of blocks
//! and of a function, `programs` those of all functions and of the start code.
//!
//! Proved: [`touches_of`] makes what `claims_definition` defines of a `LowReg`, for any frames and addresses of arrays, or
//! memory ran out (more than 2^32 blocks count as that). The time is linear in the items, and an access costs the same
//! however many arrays its claim has.
//!
//! The crate knows no addresses of code, and not the regions in which arrays lie.
#![tactic(auto)]

mod blocks;
mod instrs;
mod programs;
mod touch;

pub use programs::touches_of;
pub use touch::Touch;
