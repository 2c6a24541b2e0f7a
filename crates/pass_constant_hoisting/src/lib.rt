//! Constant hoisting: constants that loops use stand in registers of their own, set where the function begins.
//!
//! A branch compares registers, and most operators have no constant of more than 12 bits in their instruction. So a constant that a
//! loop uses there gets a register, which its function fills where it begins (`specs/Holding`): at most two for each loop of the
//! function, which the loops' own budgets pay for. [`chosen`] finds words worth a register, and any words are right;
//! [`held_functions`] puts them there.
//!
//! Proved: [`held_functions`] makes what `specs/Holding` says, or memory ran out; each good run goes on as before
//! ([`runs_are_carried`]), the program keeps to the low form ([`form_is_kept`]), and it costs little more ([`costs_are_few`]).
//!
//! This crate knows no program in the high form, and no machine register.
#![tactic(auto)]

mod choosing;
mod holding;
mod laws;

pub use choosing::chosen;
pub use holding::held_functions;
pub use laws::{costs_are_few, form_is_kept, runs_are_carried};
