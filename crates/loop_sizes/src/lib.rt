//! All numbers that the walks through a function meet fit into 128 bits, by its loose numbers.
//!
//! Worths all through a walk lie between those at first and those at last; ways between a block and the loose ones;
//! weights and multipliers between a block and what the levels reach. Where these are below 2^124 in size, the walks in 128
//! bits are exact (`loop_worths`).
//!
//! The crate has this law, a call with an empty body.
#![tactic(auto)]

ghost use Rattle.loop_sizes.specs.Laws.{NumbersStaySmall};

/// All numbers of a function that is settled stay small.
pub fn numbers_stay_small()
    ensures { NumbersStaySmall }
{}
