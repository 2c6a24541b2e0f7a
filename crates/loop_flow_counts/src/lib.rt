//! How often the flow of a function's longest ways makes each step, in 128 bits (Li and Malik 1995).
//!
//! [`flow`] hands on what starts at the places: one pass goes to the ends, along steps that cost all that the worth
//! falls, and then, the outermost loop first, one pass for each loop makes its further turns, from its header to its jump
//! back. A pass of a loop looks at the steps of its range alone.
//!
//! Counts are modulo 2^128: which steps are made doesn't depend on counts, so that a count is right in the end where it
//! fits. Proved: the counts are those of the definitions of `loop_flows`, along the steps that it chooses. That
//! worths fit is a condition, that of `loop_worths`.
#![tactic(auto)]

mod back;
mod count;
mod function;
mod pass;
mod turn;
mod turns;

pub use back::Back;
pub use count::add;
pub use function::{Made, flow};
