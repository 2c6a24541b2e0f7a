//! The plan of the program in the high form that a typed tree becomes.
//!
//! `specs/` is the translation as a definition: where each object lives (`Homes`), operators and conversions (`Operators`),
//! expressions (`Values`), statements (`Statements`). Effects within an expression become statements in the order of the source's meaning; a value goes
//! into a temporary only where what is done before it is used may change it; `&&`, `||` and `!` in a test become jumps.
//!
//! This crate knows no meaning of the source, and nothing of memory.
#![tactic(auto)]

pub mod home;
pub mod purpose;

pub use home::Home;
pub use purpose::Purpose;
