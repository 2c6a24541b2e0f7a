//! The evaluator of sources.
//!
//! Proved: what it answers is the meaning of the program on the input, counts and places included.
//!
//! It walks over the typed tree with one state, which it changes in place. It knows no machine.
#![tactic(auto)]

mod entry;
mod evaluation;
mod parts;
mod restrictions;
mod walk;

pub use entry::main_of;
pub use evaluation::eval;
pub use meaning_semantics::{SourceRun, Unkept};
