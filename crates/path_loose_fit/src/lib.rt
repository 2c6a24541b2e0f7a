//! Whether the loose flows of a system have values that a search can add up.
//!
//! A loose flow may lose some of what arrives at an address, and turns its loops as often as it may. A search for the
//! greatest flow rests on their values, each below 2^60, and on their counts, each below 2^49. [`values_fit`] finds worths
//! of addresses by one walk over each function, as if all of its code were one straight line and each loop turned as often
//! as it may, and tests of each move that they pay for it. Proved: a yes is right. It takes the sum for the longest path,
//! so that it may say no where the longest path is shorter. [`counts_fit`] does the same at costs of one cycle a move.
//!
//! The crate knows nothing of searches and of certificates.
#![tactic(auto)]

mod claim;
mod fit;
mod line;
mod row;

pub use fit::{counts_fit, values_fit};
