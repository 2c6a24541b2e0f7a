//! Reports, and the one text of each.
//!
//! A report says what is claimed of the runs of an image and carries a certificate of its bound
//! (Li and Malik 1995), so that others can check it. `specs/Lines.antt` defines its text, line by
//! line, in both versions, and `specs/Forms.antt` what a report keeps to: the forms, ranges and
//! orders of its lines, a multiplier for each claim, a total for each fact in each column, and the
//! mark of its kind. The lines are made of the words of `report_words`.
//!
//! Proved: `write` gives that text. A `Report` is made by its literal, which owes what a report
//! keeps to. Want of memory alone is left open.
//!
//! The crate knows nothing of images, of how a report is found, or of how one is checked.
#![tactic(auto)]

mod claim_lines;
mod entries;
mod report;
mod writing;

pub use entries::{CopyLine, Share};
pub use report::Report;
pub use writing::write;
