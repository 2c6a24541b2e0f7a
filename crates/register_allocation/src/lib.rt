//! Register allocation: machine registers for the registers of a program, by a linear scan over their live intervals (Poletto and
//! Sarkar 1999).
//!
//! The registers of a function come in the order in which their intervals begin (`order`). Each gets a machine register that is
//! free there; where none is, the register that is used least for each place of its interval, the new one or one of the 24 that
//! have them, gets a slot of its own (`scan`). Which of several machine registers is best is a matter of taste (`tastes`): one in
//! which the value comes or is wanted, that of a copy, and over calls one that they leave alone. Then a sweep over the code finds
//! which machine registers each call has to keep (`masks`). The time is that of a sort of the registers, and linear in the code.
//!
//! Proved: [`allocate`] gives an assignment of the program that it is handed; a register has a slot only where a place of its own
//! interval is covered by more than 24 intervals; and no function has more slots than registers. [`placings`] gives such places for any
//! functions. `Memory` is free. How good the choices are is not proved.
//!
//! The crate knows no layout, and not how intervals are found.
#![tactic(auto)]

mod allocation;
mod briefs;
mod choice;
mod masks;
mod order;
mod results;
mod scan;
mod tastes;

pub use allocation::{allocate, placings};
