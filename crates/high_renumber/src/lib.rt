//! Programs in the high form whose marks and loops have the numbers of those that they are copies of, and get numbers of
//! their own.
//!
//! A pass that copies statements copies their marks and loops with them. It may leave them their numbers: a program is
//! [`Loose`] where several marks or loops have one number. [`renumber`] numbers them in the order in which they stand, and
//! lists for each old mark and loop which are its copies (`specs/Numbered`).
//!
//! Proved: [`renumber`] answers what is defined there; and where a loose program keeps another, as `specs/Keeping` says,
//! the renumbered one is lawful after it ([`renumbered_is_lawful`], the contract of a function without a body). So a pass that
//! copies statements proves nothing of fresh numbers, lists and counts. Each statement is visited once, and marks and loops
//! are listed by one step each.
//!
//! This crate knows no pass.
#![tactic(auto)]

mod grouping;
mod laws;
mod loose;
mod numbering;
pub mod numbers;
mod renumbering;

pub use laws::renumbered_is_lawful;
pub use loose::Loose;
pub use renumbering::renumber;
