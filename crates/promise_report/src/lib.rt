//! What an image and a report of a source promise: the definitions behind `compile`, alone.
//!
//! `specs/Runs`: the machine that runs the image does what the source does, within the cycles of the report.
//! `specs/Facts`: what the report claims are the facts of the source. `specs/Compiled`: the promise in six statements with a
//! name each, these two among them: the source, what is written, that the report holds of the image, and that its cycles are
//! the greatest value of a flow.
//!
//! Nothing here knows a stage of the compiler: no high or low form, no register, no layout.
#![tactic(auto)]
