//! Laws of reports and their texts.
//!
//! Proved: no line of a report's text fails ([`no_fault`]), so that what the reader of
//! `report_reading` refuses is the text of no report; and one text belongs to one report
//! ([`one_report`]), so that what the reader answers is the report that was written. Both rest on the
//! ranges that the types of a report's fields give ([`is_typed`], `specs/Typed`). By these ranges each line has a greatest
//! length too: a text is no longer than its lines together ([`texts_have_room`]), 14 bytes for an exit, 29 for a line of regions,
//! 145 for a loop, 58 for a potential and so on (`specs/Room`).
//!
//! Each law is a call that takes no memory, changes nothing, and hands out what its contract says.
//! `proofs/TextLaws` and `proofs/OneReport` have the first two for the proofs of the crates above.
//!
//! The crate knows nothing of images, nor of what a report is for.
#![tactic(auto)]

mod laws;
mod room;
mod typed;

pub use laws::{no_fault, one_report};
pub use room::texts_have_room;
pub use typed::is_typed;
