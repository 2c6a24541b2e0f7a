//! Who calls whom in a typed tree, and call ranks, with their definitions (C11 6.5.2.2).
//!
//! `specs/` has them in reading order: `Calls` (the calls of each part, as often and in the order in which they
//! stand) and `Chains` (chains of calls, ranks, and functions that reach themselves).
//!
//! This crate has types and definitions alone: who computes them stands above.
#![tactic(auto)]

pub mod ranks;

pub use ranks::{CallFault, Ranks};
