//! When a line of a report may stand, and what it says then.
//!
//! Each kind of line has a rule (`specs/Rules.antt`): what its words behind the first one have to be
//! in form and order, and then in range. What a line's order asks of the lines before it is a small
//! state, such as the least address that may follow; the rule says the state behind the line, too.
//! `specs/Heads`, `ClaimRules`, `FactRules` and `CertRules` have the rules in the order of the
//! format.
//!
//! Proved: each call answers what the words say, if the line stands by its rule and is in range, and
//! then the line that `report_text` writes of the answer has these words and keeps what a report
//! keeps; else exactly whether form or order is broken, or a number is out of range. Want of memory
//! alone is left open.
//!
//! The crate doesn't know texts, nor which kind of line follows which.
#![tactic(auto)]

mod certs;
mod claims;
mod facts;
mod flaw;
mod heads;
mod lists;
mod shapes;
mod words;

pub use certs::{LeastMove, flow, potential, scale, share, unit};
pub use claims::{Reached, exit, loop_claim, never, region};
pub use facts::fact;
pub use flaw::Flaw;
pub use heads::{cycles, end, kind, version};
pub use lists::{column, copy};
pub use words::is_word;
