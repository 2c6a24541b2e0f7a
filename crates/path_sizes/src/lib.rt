//! All numbers of a search over a whole system fit into 128 bits, and those of its certificate have the ranges that a checker wants.
//!
//! These are laws, calls with an empty body:
//!
//! - where no loose flow has a total above a bound, and what all loops add to it stays below 2^124, each function's numbers
//!   stay small when it is settled, so that the walks in 128 bits are exact ([`numbers_fit`]);
//! - open sums have open parts ([`functions_are_open`]): a worth is open, and no larger in size than the loose one beside it, or it is
//!   blocked, and far below; so where a sum isn't far below, none of its parts is, and the flow along the steps of the greatest worths
//!   never comes to a block, at prices of both signs;
//! - potentials, multipliers and rows are narrow ([`duals_are_narrow`]): an address is the header of one loop at most, and the jump back
//!   of one, so that few terms of its rows are there, and a row adds up to no more than 32 times the size of the walks' numbers; what
//!   never claims and loops without turns pay is no more than three times that size, since a call ends no loop, and a loop that begins
//!   and ends at an address holds there what it holds at one of both;
//! - all three hold for a search by costs, where every loose flow has a value below 2^60 ([`costs_have_ranges`]).
#![tactic(auto)]

mod laws;

pub use laws::{costs_have_ranges, duals_are_narrow, functions_are_open, numbers_fit};
