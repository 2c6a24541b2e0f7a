//! Whether what a parser has begun is too deep: each unit that begins so is at least as deep as
//! `parse_grammar` says of the machine's state, and no unit may be more than 256 nodes deep.
//!
//! Proved: [`is_shallow`] answers exactly that, where what had begun before the newest part was shallow.
//! It goes from the newest part outwards, and stops where a list of items, of arguments or of values has
//! something as deep beside it: what stands under that was tested before. `proofs/Steps` has the law
//! behind it: no step of the machine makes what was there before its newest part deeper than what had
//! begun.
#![tactic(auto)]

mod declaring;
mod framing;
mod shallow;
mod stacking;

pub use shallow::is_shallow;
