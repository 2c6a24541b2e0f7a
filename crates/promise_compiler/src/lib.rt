//! What a compiler of sources promises: the one call that the commands make of it.
//!
//! [`Compiler`] answers the image of a source and the report on it, which keep what `promise_report` promises, or the one cause
//! for which the source isn't compiled. Who calls it knows no stage of it, and is proved without one.
#![tactic(auto)]

mod built;
mod compiler;
mod refusal;

pub use built::{Built, Options};
pub use compiler::Compiler;
pub use refusal::Refusal;
