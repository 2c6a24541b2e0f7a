//! The flow of a whole system by its worths (Li and Malik 1995, structural constraints and loop bounds; Schrijver 1986,
//! complementary slackness).
//!
//! A function's flow is a pass to the ends and one for the turns of each loop. What starts is at the entry, and where
//! calls that were made go, so that a caller comes before those that it calls. The amounts of moves are those of the
//! steps of all passes, and a jump back is made as often as its loop turns again.
//!
//! Proved, each by a call with an empty body: where the entry's worth is open, and each open sum has open parts, what leaves
//! each address is what arrives there, and one at the entry ([`flows_are_conserved`]). And for a system without facts whose worths
//! are open where its flow goes, the listed flow is a flow of unit 1 ([`flows_keep_claims`]), and each limit that has a multiplier
//! holds with equality ([`flows_are_exact`]).
//!
//! The crate has definitions and these laws. It knows nothing of certificates.
#![tactic(auto)]

mod laws;

pub use laws::{flows_are_conserved, flows_are_exact, flows_keep_claims};
