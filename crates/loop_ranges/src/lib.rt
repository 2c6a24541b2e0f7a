//! Bounds on the numbers of a search by loops: each stays near that of a walk that may go everywhere.
//!
//! Beside each worth of the walks stands a loose one: what is still to come at most, wherever a search may not go. A worth is
//! open, and no larger in size than the loose one, or it is blocked, and at most the loose one less the price of a block.
//! Sums and maxima of such worths are such worths, so that all walks keep to it ([`worths_stay_near`]); and each loop that is
//! settled adds no more to the greatest worth than twice the greatest loose one, the price of a block and a number of starts
//! ([`worths_reach`]).
//!
//! The loose walk of a function is the walk with no place that may not be visited, with all turns that a loop may make and none
//! that it has to make, at prices that aren't negative. Its worths and turns are the loose numbers of every search over the same
//! code ([`loose_walk_pays`]).
//!
//! The crate has definitions and these laws, calls with an empty body. It knows nothing of systems, claims or flows; what
//! it proves of any flows that steps and turns lead on stands in `proofs/FlowLemmas.antt`.
#![tactic(auto)]

mod laws;

pub use laws::{loose_walk_pays, worths_reach, worths_stay_near};
