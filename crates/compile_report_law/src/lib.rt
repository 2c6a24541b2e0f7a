//! Why the checker accepts the report on a source.
//!
//! `specs/Reported` says what the report on what a source becomes in memory is. Proved, by calls with empty bodies: it keeps to the forms,
//! ranges and orders of a report ([`reported_are_reports`]), and the checker accepts its text with that of the image ([`reported_hold`]).
//!
//! The crate knows not how claims, certificates and ranges of code are found.
#![tactic(auto)]

ghost use Rattle.compile_report_law.specs.Laws.{ReportedAreReports, ReportedHold};

/// What is reported has the form of a report.
pub fn reported_are_reports()
    ensures { ReportedAreReports }
{}

/// The checker accepts the report with the image.
pub fn reported_hold()
    ensures { ReportedHold }
{}
