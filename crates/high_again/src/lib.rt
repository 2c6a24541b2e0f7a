//! The identity pass: it makes the same program again.
//!
//! Proved: [`Again`] answers a program in the high form that is equal to the old one, in which each mark and each loop is its
//! own copy; so it is lawful, as `high_pass` asks of each pass. It is the least pass over all programs: what another one has
//! beside it is what it changes, and what it makes again it makes by the functions of these modules, each of which answers
//! what its name says or that memory ran out. Each statement is visited once.
//!
//! This crate knows no other pass, no source language and no machine.
#![tactic(auto)]

mod copies;
pub mod expressions;
mod pass;
pub mod program;
pub mod statements;

pub use pass::Again;
