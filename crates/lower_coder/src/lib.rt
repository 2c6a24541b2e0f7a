//! Pieces of the program in the low form that a program in the high form becomes.
//!
//! `Coder` holds instructions that are made one after another; `objects` and `operators` say what arrays and operators
//! become. `specs/View` sees each without where it lies in memory.
//!
//! Proved: every function makes the piece that `lower_definition` defines, or memory ran out; numbers past 32 bits are answered
//! as want of memory.
//!
//! This crate knows no expression and no statement.
#![tactic(auto)]

pub mod coder;
pub mod numbers;
pub mod objects;
pub mod operators;

pub use coder::{Coder, Few};
