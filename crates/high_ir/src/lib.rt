//! The high form of a program: statements without effects hidden in expressions, every loop with its
//! bounds, every count a mark.
//!
//! `specs/` has the tree without where it lies in memory (`Tree`, `View`), what it does (`Words`,
//! `Meaning`, `Runs`), how large it is (`Size`, `Weight`) and what a program keeps to (`Standing`,
//! `Formed`, and `Whole`: its constants are words). A run is good where it ends by a return and every loop starts its body as often as its
//! bounds say.
//!
//! Proved: [`High`] keeps to `IsHigh`; [`size`] and [`loops`] are its numbers, and the operators
//! compute what their definitions say. None of them takes memory. [`expressions`] and [`statements`] put a part into the one that
//! it becomes a part of, and never copy it.
//!
//! This crate knows no source language, no register and no pass.
#![tactic(auto)]

pub mod copies;
pub mod expression;
pub mod expressions;
pub mod high;
mod measure;
pub mod object;
pub mod operator;
pub mod statement;
pub mod statements;

pub use copies::{Carried, Copies, LoopCopies, LoopCopy, MarkCopies, NeverMark};
pub use high::{Function, High};
pub use measure::{loops, size};
