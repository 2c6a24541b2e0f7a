//! The flow through the code of one function with its loops, by its worths: how often each step is made (Li and Malik 1995, loop
//! bounds; Schrijver 1986, complementary slackness).
//!
//! An amount at a place is handed on by the first chosen step there. One pass hands on what starts in the function, to
//! its ends, along steps that cost all that the worth falls. Then, the outermost loop first, a pass for each loop hands on its
//! further turns, from the header to the jump back, along steps of the longest way: so many for each visit of the header so far,
//! as many as the loop may make where a turn gains, and else as many as it has to.
//!
//! Proved, each by a call with an empty body:
//!
//! - [`flows_conserve`]: where chosen steps lead on from each place that is reached, what comes to a place leaves it, and
//!   each loop turns as often as it has to; and along chosen steps each way of a turn goes on to the jump back ([`turnings_turn`]);
//! - [`squeezed_is_tight`]: where what starts is squeezed between two worths, each step that is made costs all that the
//!   worth falls along it;
//! - [`loops_keep_bounds`]: where what is made is made at places with open weights, each loop is visited as often as its bounds
//!   say for each start, and just as often as a bound says that has a multiplier;
//! - [`turns_are_tight`]: each step that is made in a turn costs all that the worths fall, and a jump back that is made is worth
//!   what its loop's multipliers make it. For the last worths are squeezed to those of each pass where it goes.
//!
//! The crate has definitions and these laws. It knows nothing of systems, claims or certificates.
#![tactic(auto)]

mod laws;

pub use laws::{
    flows_conserve, loops_keep_bounds, squeezed_is_tight, turnings_turn, turns_are_tight,
};
