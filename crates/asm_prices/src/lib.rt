//! A bound on the flows of laid code without a search: none takes more than blocks cost, as often as loops and calls may start them.
//!
//! A loose flow may lose at each address some of what arrives there, and turns each loop at most as often
//! as its claim says (Li and Malik 1995). Of laid code it has a bound in closed form, by no search: what the
//! words of a block cost, as often as the loops may start the block, and for each call what its function is
//! worth (`specs/Worths`). Where each move costs at most the price of its address, no total of a loose flow
//! is above its unit times the worth of the function at which the image is entered ([`loose_flows_are_bounded`]). The worth of an
//! address is what is left of its block and what may come behind, each later block as often as the loops allow that are still to be
//! entered from there; a loop's header leaves what its own loop costs to the loop's turns.
//!
//! The code of a program over places is laid in any forms of its items (`asm_program`, `asm_graphs`), and each loop
//! has its claim (`specs/Bounds`). With a price of 1 the law bounds how many instructions a loose flow may execute, and with prices at
//! some addresses alone how often it may visit these. So, each by a call with an empty body as well:
//!
//! - [`counts_below_weight`]: the counts of a loose flow add up to at most the program's weight per unit
//!   (`low_ir`), the start code included;
//! - [`counts_below_reach`]: its counts at the addresses of a mark add up to at most the mark's reach;
//! - [`moves_cost_few`] and [`values_below_weight`]: no move costs more than 4000 cycles, so its value is at most
//!   4000 times the weight per unit; where that is below 2^60, a search for the greatest flow can hold its numbers;
//! - [`chosen_has_code`]: the forms that `asm_forms` chooses are such code, wherever their two rows lie.
//!
//! The crate knows no addresses of code but where blocks begin, nothing of how a search finds flows, and no machine's runs.
#![tactic(auto)]

mod laws;

pub use laws::{
    chosen_has_code, counts_below_reach, counts_below_weight, loose_flows_are_bounded,
    moves_cost_few, values_below_weight,
};
