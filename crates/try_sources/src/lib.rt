//! What programs of tests do with a source: its program, its meaning, and how a run compares with it.
//!
//! `try_forms` and `try_images` stand on it, and add the runs of their own forms. `fault` is why there is nothing to say,
//! `commands` takes a program's words and ends it.
//!
//! Proved: [`read`] gives the typed program of a source and its facts, [`made_of`] the program in the high form that
//! `plan_definition` defines of it, and [`meaning_of`] what it means on an input; a source is refused only where
//! `facts_front` has a cause, and all else is want of memory. Each verdict of [`compare`] says what `specs/Verdicts` says that
//! it says. So `equal` is answered only where the run has ended and the source's is kept, and both have one value, one output,
//! and for each function and marker as many marks of its copies as the source counts.
//!
//! The crate runs nothing.
#![tactic(auto)]

mod commands;
mod comparing;
mod fault;
mod sources;

pub use commands::{end, words};
pub use comparing::{Ended, Verdict, compare};
pub use fault::Fault;
pub use sources::{made_of, meaning_of, read};
