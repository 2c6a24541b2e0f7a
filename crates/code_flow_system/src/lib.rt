//! The flow system of an image: its moves, the claims on its runs, flows, and certificates that
//! bound every flow. Definitions, types and their laws.
//!
//! A run of the image passes its addresses by moves. How often each move is made is a flow: what
//! leaves an address is what arrives there, as in a network of pipes, with one unit let in at the
//! entry. Claims restrict the counts (a loop turns at most so often), and the cycles of a run are at
//! most the value of its flow. A certificate has a potential for each address and a multiplier for
//! each claim; where each move costs no more than the potential falls along it, no flow has a
//! greater value than the entry's potential, and so no run takes more cycles.
//!
//! Proved, each by a call with an empty body:
//!
//! - `runs_are_flows`: a finished run of the machine that keeps the claims is a flow of unit 1,
//!   whose value is at least the run's cycles;
//! - `weak_duality`: no flow has a value above the potential of an accepted certificate, and what
//!   its mark says is so;
//! - `bounds_runs`: so each finished run that keeps the claims ends within its cycles;
//! - `duality_of_prices`: the same for any prices of the moves, and a total without slack reaches
//!   the bound;
//! - `flows_are_loose`: every flow is a loose one, which is what a search's numbers are bounded by.
//!
//! `specs/` is to be read in the order of `specs/Lib.antt`. The crate knows nothing of files, of a
//! source language, of how a system is found or of how a certificate is. No number is computed
//! here: a checker and a search stand above.
#![tactic(auto)]

mod cert;
mod claims;
mod index;
mod kept_runs;
mod laws;
mod moves;
mod shapes;
mod system;

pub use cert::{Cert, Flow, Mark, Part};
pub use claims::{Claims, FactClaim, LoopClaim, Never, Within};
pub use index::{Arrival, Mention};
pub use kept_runs::{bounds_runs, runs_are_flows};
pub use laws::{duality_of_prices, flows_are_loose, weak_duality};
pub use moves::{Move, Way};
pub use shapes::{LoopShape, Span};
pub use system::System;
