//! What expressions of a program in the high form become in the low form: instructions, and then an operand, an index, an
//! address or a branch.
//!
//! Proved: `value_into`, `operand`, `index_of`, `tested` and `values_passed` make the instructions that `lower_definition` defines
//! behind those that are there, or memory ran out. Each expression is visited once; instructions are only pushed.
//!
//! This crate knows no statement and no block.
#![tactic(auto)]

pub mod addressing;
pub mod passing;
pub mod scope;
pub mod sharing;
pub mod testing;
mod walk;

pub use addressing::{base_of, offset_of};
pub use passing::values_passed;
pub use scope::Scope;
pub use sharing::{Share, share_code, shares_at, shares_in, shares_in_all};
pub use testing::{Comparison, tested};
pub use walk::{index_of, operand, value_into};
