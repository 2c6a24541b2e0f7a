//! The transfer function of dataflow facts: what is known of registers as instructions go by.
//!
//! A table of facts (`known`), in the order of the instructions: a register that is written is forgotten, and what it holds then is
//! learned (`passing`); a step of a register by a constant is taken out of the constants of all forms that have it (`changing`). What
//! the facts say together is found by putting the forms of registers in their place (`reading`).
//!
//! Proved: [`Known::pass`], that whatever an instruction does, what is known behind it is true then; what [`reading`] finds is true
//! where the facts are. That much is found is not proved.
//!
//! The crate knows no pass.
#![tactic(auto)]

mod changing;
mod known;
pub mod passing;
pub mod reading;

pub use known::Known;
