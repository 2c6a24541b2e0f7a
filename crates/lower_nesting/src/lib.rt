//! The blocks of statements in the low form, as they stand, and what those that begin in a part of a run say of loops.
//!
//! `specs/` says when each entry of a loop, among the blocks that a part of a run begins, has starts
//! within the loop's bounds (`Segments`). Proved, each the contract of a function without a body: such parts compose
//! ([`parts_compose`]), and where the blocks of a statement stand, those of its loops stand inside ([`loops_stand_inside`]).
//!
//! This crate knows no meaning of statements.
#![tactic(auto)]

mod laws;

pub use laws::{loops_stand_inside, parts_compose};
