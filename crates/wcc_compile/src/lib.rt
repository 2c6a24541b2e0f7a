//! From the bytes of a source to its image and the report on it.
//!
//! `src/stages.rt` is the list of the stages behind the source: its plan, the passes, the low form, the image, what is told of the
//! source, the bound of the image's flow system, the report; then what lies in the scratchpad, by the flow of that bound, and the
//! image, what is told and the bound again, where anything is chosen. A stage that comes in is one line there.
//!
//! Proved: what [`compile`] answers is what `promise_report` promises (`IsCompiled`): on every input on which the run of the
//! source is defined and keeps its annotations the image prints and returns what the source does, within the cycles of the
//! report; the report tells the facts of the source, and the checker accepts it with the image, which both are short enough to
//! be read by it. `Front` is answered with the cause for which the source has no program with facts; memory alone is left open.
//!
//! [`Built`] keeps what the source was on the way, and each step is made of the one before it (`specs/Built`): no pass is left
//! out, the code is that of the last program with each function once, no choice of functions and arrays that fits the scratchpad gains more by the
//! flow which the certificate of the first layout lists, the report has the image's claims and no others.
//!
//! [`WccCompiler`] is this call as the commands ask for it: the image and the report alone, and that they were built so
//! (`specs/Written`). The crate knows no files and no status, and no stage from within.
#![tactic(auto)]

mod built;
mod high_passes;
mod laws;
mod low_passes;
mod making;
mod reading;
mod stages;

pub use built::Built;
pub use laws::reported_are_compiled;
pub use stages::{WccCompiler, compile};
