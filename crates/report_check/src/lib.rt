//! The check of an image and a report from their bytes, and a report's summary.
//!
//! `check_report` reads both, finds the flow system, and asks the checker. Proved: where it answers
//! a bound, the text is that of a report whose certificate is accepted and whose shares fit, and
//! each finished run of the image that keeps the report's claims ends within its cycles, on every
//! input; where a report holds of the image a bound is answered; a refusal is what fails first, in
//! the order of `specs/Checks.antt`.
//! `summarize_text` says in a few lines what a report says, or which line of it is the first that
//! fails. Want of memory alone is left open.
//!
//! The crate knows no files and no status, and nothing of how a report is found.
#![tactic(auto)]

mod causes;
mod checking;
mod reading;
mod summary;
mod verdict;

pub use checking::check_report;
pub use summary::summarize_text;
pub use verdict::{Cause, Checked};
