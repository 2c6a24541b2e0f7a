//! Longest ways through the code of one function with its loops (Li and Malik 1995, loop bounds; Schrijver 1986, weak
//! duality): what is still to come at each place, at any prices, and the multipliers of the loops' bounds.
//!
//! Places are numbered as their addresses ascend, and a step goes on to a later place or out of the function. The jump
//! back of a loop is no step, nor is a way on from a place that may not be visited: the multipliers pay for both.
//!
//! - A turn walk of a loop, the inmost first, goes from its header to its jump back. What a turn gains is its worth,
//!   and the price of a block where there is no turn. A header's weight is what its further turns gain.
//! - One walk over all steps goes to the ends.
//! - Then, the outermost loop first, each loop's multipliers are settled, its jump back is worth what its header and
//!   the multipliers make it, and its steps are walked again.
//!
//! Proved, by a call with an empty body: after that no step costs more than the worth falls along it, and each jump back
//! is paid with the multipliers of its loop, at any prices and whatever the worths are (`settling_pays`).
//!
//! The crate has definitions and this law, and no number is computed here. It knows nothing of systems, claims or
//! certificates.
#![tactic(auto)]

mod laws;
mod step;

pub use laws::settling_pays;
pub use step::{Code, Loop, Pair, Step};
