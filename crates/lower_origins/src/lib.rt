//! Where the functions and the claims of a program in the low form come from, and the order in which functions stand.
//!
//! `specs/` says which functions calls reach from main (`Reached`) and which arrays calls pass for an array parameter
//! (`Passing`). Proved, as contracts of functions without a body: [`order_is_closed`], that calls go to lower places;
//! [`order_is_reached`], that just the functions that calls reach from main are there; [`claims_are_closed`], that the arrays
//! which calls pass are listed; and [`claims_are_passed`], that no others are.
//!
//! This crate knows no code.
#![tactic(auto)]

mod laws;

pub use laws::{claims_are_closed, claims_are_passed, order_is_closed, order_is_reached};
