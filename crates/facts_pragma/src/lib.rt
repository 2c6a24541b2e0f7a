//! The reader of pragmas: bounds of loops, markers and flow restrictions.
//!
//! Proved: each function answers exactly what the grammar in `facts_definitions` says of a pragma's text, or `None` where the
//! text breaks it; a restriction's names are the numbers of a list of names.
//!
//! This crate knows nothing of trees, nor of where a pragma stands.
#![tactic(auto)]

mod bounds;
mod bytes;
mod comparison;
mod marker;
mod names;
mod runs;
mod sums;

pub use bounds::loop_bounds;
pub use comparison::restriction;
pub use marker::marker_name;
pub use names::name_id;
