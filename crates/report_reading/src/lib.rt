//! The reader of reports.
//!
//! A text is read section by section, each of its lines by the rule of its kind (`report_rules`). In
//! `specs/` stand how a text is cut (`Texts`), how sections are read (`Sections`), the order of a
//! report's lines (`Faults`), and the first line of a text that fails: a function of the text, so
//! that there is one at most.
//!
//! Proved: `read` answers the report of which the bytes are the text, and then no line of them
//! fails; or exactly the first line that fails, and whether by its form or order or by a number out
//! of its range. Want of memory alone is left open. A report is read in one pass, and nothing is
//! looked at twice but the first line of a section.
//!
//! The crate knows nothing of images, nor of what a report is for.
#![tactic(auto)]

mod certificate;
mod certs;
mod claims;
mod fault;
mod head;
mod lists;
mod middle;
mod place;
mod reading;
mod single;

pub use fault::ReportFault;
pub use reading::read;
