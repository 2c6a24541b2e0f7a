//! Dataflow facts: what may be known of the registers of a function as its blocks begin, and how its code is to change by it.
//!
//! A fact says what a register holds, a word or a pointer into one array, and that its number is a sum of multiples of the numbers of
//! other registers (`facts`, `forms`; `specs/Facts` says what it means). A proposal has facts for each block of a function and the
//! edits that make its new code of the old (`proposals`): who proposes needn't be believed.
//!
//! Proved: the arithmetic of `forms`, modulo 2^32.
//!
//! The crate knows no pass.
#![tactic(auto)]

pub mod facts;
pub mod forms;
pub mod proposals;

pub use facts::{Fact, Origin};
pub use forms::{Form, Term};
pub use proposals::{Change, Edit, Proposal};
