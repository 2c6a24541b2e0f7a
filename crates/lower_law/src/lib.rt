//! The law of the low form: what the low program of a program in the high form keeps of it.
//!
//! `specs/Programs` says what that is, in one record. Proved of each program that keeps to the high form: its low
//! program keeps to the low form; each good run of it is a good run of the low program with the same output, value and
//! marks, over virtual registers and over slots; the functions, loops, marks and arrays of the low program are those
//! that calls reach from main; an access names its object, or the arrays that calls pass for its array parameter; and the
//! low program takes, and may execute, at most so many machine instructions.
//!
//! This crate has no code: [`lowered_keeps`] is the contract of a function without a body, and so is [`lowered_spares`], that the
//! registers that a pass may add are all left.
#![tactic(auto)]

mod laws;

pub use laws::{lowered_keeps, lowered_spares};
