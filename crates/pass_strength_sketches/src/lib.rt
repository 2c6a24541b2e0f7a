//! Sketches of functions for the search of strength reduction: what they are to become, and what is found of them once.
//!
//! A sketch has each instruction with what becomes of it, and those that are to come (`sketch`, over `acts`). Of a function its blocks
//! and loops are found (`map`), and which registers hold words alone, small ones among them, or one word (`words`, `smalls`); linear
//! forms over registers have their operations (`forms`), and sets of registers along code their tables (`living`, `tables`).
//!
//! Nothing is proved of it but that it is safe and ends: any proposal is right that is checked.
//!
//! The crate knows no loop's registers and no choice.
#![tactic(auto)]

pub mod acts;
pub mod forms;
pub mod living;
pub mod map;
pub mod sketch;
mod smalls;
pub mod tables;
pub mod words;
