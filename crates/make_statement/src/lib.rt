//! What declarations and statements of a typed tree become in the high form.
//!
//! Proved: `body` is the statement that `plan_definition` defines, or memory ran out. Each statement is visited once; code is
//! moved and never copied.
//!
//! This crate knows nothing of how objects and functions are numbered.
#![tactic(auto)]

mod continuing;
mod declaring;
mod exits;
mod labels;
mod loops;
mod parts;
mod plan;
mod returning;
mod walk;

pub use plan::Plan;
pub use walk::body;
