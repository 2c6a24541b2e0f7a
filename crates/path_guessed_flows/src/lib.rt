//! Guessed flows, and the test whether one has the value that a certificate bounds (Schrijver 1986, linear programming duality).
//!
//! The weights that columns have in a solution are the fractions that solve equations in whole numbers. [`solved_flow`] solves these modulo
//! a prime, adds the columns' flows with the weights modulo it too, and finds the fractions again that the amounts are (Wang 1981,
//! rational reconstruction), and so the least unit over which the flow is in whole numbers: nothing is rounded, and no number is
//! long. Whether it is a flow that keeps all claims and has the value of a certificate is decided by the checker of certificates:
//! [`tested`] gives the certificate with the flow where it is accepted, and else the certificate as it was.
//!
//! Proved: what a test says, and that the parts of a guessed flow ascend and its unit is small. Nothing is claimed of how good a
//! guess is: so no clause speaks of a residue.
#![tactic(auto)]

mod guessing;
mod listing;
mod mixing;
mod residues;
mod solving;
mod testing;
mod units;

pub use guessing::{Guessed, solved_flow};
pub use testing::{Outcome, tested};
