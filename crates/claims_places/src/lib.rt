//! Makes the addresses of the marks of a laid program, in a list for each mark.
//!
//! Proved: [`places_by_mark`] makes the lists that `claims_definition` defines of each laid program that has this code and
//! layout, mark by mark in the order of their numbers, or memory ran out. Time and memory are linear in marks and blocks.
//!
//! The crate knows no items.
#![tactic(auto)]

mod places;

pub use places::{by_number, places_by_mark};
