//! The checker of certificates: whether a bound on the runs of an image holds.
//!
//! `check` says yes exactly where a certificate is accepted: the rows of `specs/Rows.antt` hold. Else it answers the
//! first of them that fails, in the order of `specs/Verdicts.antt`. Proved: both, and that a yes bounds every finished
//! run that keeps the claims, on every input, of each image of which the system is the system.
//!
//! The definitions are over whole numbers without end; the code computes in 128 bits, in one place, and a sum whose
//! absolute values come to 2^126 fails its row, so that nothing wraps. It takes no memory, and its steps are linear in
//! the moves, the claims and the certificate but for the searches in ascending lists.
//!
//! `slack` is what is left of one row, for a search that makes certificates.
//!
//! The crate knows nothing of files, of how a system is found or of how a certificate is.
#![tactic(auto)]

mod checking;
mod flows;
mod greatest;
mod missing;
mod multipliers;
mod numbers;
mod potentials;
mod row;
mod rows;
mod running;
mod signs;
mod unmet;
mod wide;

pub use checking::check;
pub use row::{Row, Verdict};
pub use rows::slack;
pub use running::Running;
