//! Where the code of a program finds what it keeps in memory.
//!
//! A [`Frame`] is that of one function, and [`Data`] has the frames of all, the address of each array and what the second
//! base holds. Contracts see both as `asm_program/specs/Frames.antt` defines them, and the addresses of their words are those of that file.
//!
//! The crate knows no instruction, and not where frames and arrays are put.
#![tactic(auto)]

mod frames;

pub use frames::{Data, Frame};
