//! Reports: the one text of a report, the report of a text, and the shares of functions in a bound.
//!
//! [`write`] gives a report's text, and [`read`] the report of a text, or the first line that fails. [`fill_shares`] finds how
//! much of a bound the code of each function has, and [`share_fault`] says which share a flow doesn't bear out. What each
//! promises stands at its own place: `report_text`, `report_reading` and `report_shares`.
#![tactic(auto)]

pub use report_reading::{ReportFault, read};
pub use report_shares::{fill_shares, share_fault};
pub use report_text::{CopyLine, Report, Share, write};
