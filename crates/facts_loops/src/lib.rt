//! The loops of a source, as definitions: which it has, which of them count, and what several starts leave of their bounds.
//!
//! `specs/Loops` has the loops in the order of the source, fillings included, with their numbers and with how often each entry starts
//! its body. `specs/Factors` says which starts are left where several starts of a loop are one start of another.
//!
//! A counting loop (C11 6.8.5.3) is a `for` whose first part sets a local int to a constant, whose test compares it with a constant,
//! and whose last part steps it by a constant towards that limit, while nothing in its body changes it. `specs/Counting` says so clause
//! by clause, and how often such a loop turns; `specs/Changes` says what changes an object, and `specs/CountingLoops` which of a
//! program's loops bounds are derived for.
//!
//! This crate has no code, and knows nothing of how a program is run.
#![tactic(auto)]

pub mod form;

pub use form::{Limit, LoopForm};
