//! How large the numbers of a search over a whole system get, at any prices and by costs.
//!
//! A loose flow may lose at each address some of what arrives, and a loop turns at most as often as it multiplies its starts. Each
//! worth of the loose walks (`loop_ranges`), function by function, is the total of a loose flow from the entry: the way there, then
//! on along the steps that the walk takes, with the further turns of each header and the flows of what is called. So a bound of the
//! totals of loose flows, which the layout of code gives, bounds the loose worths, and with them every number of a search.
//!
//! These are laws, calls with an empty body: no worth of the loose walks is above such a bound ([`loose_worths_are_totals`]); so the
//! loose walks give the loose numbers of each function when it is settled ([`walks_are_bounded`]), and no worth is below a block, nor
//! above the bound and, for each loop, twice the bound, a block and a number of starts ([`worths_are_bounded`]).
//!
//! By costs a block costs four times what a loose flow can. Where every loose flow has a value below 2^60, each loop has to turn no
//! more often than it may, and there are fewer than 2^32 of them, no loose worth is above 2^60, and 2^97 is enough for all worths,
//! weights and multipliers ([`costs_are_bounded`]). And each move costs a cycle at least, so that no count of a loose flow is larger
//! than its value ([`loose_counts_are_below`]); and what a checker adds up over the counts of a flow is narrow
//! ([`limits_are_narrow`]).
#![tactic(auto)]

mod laws;

pub use laws::{
    costs_are_bounded, limits_are_narrow, loose_counts_are_below, loose_worths_are_totals,
    walks_are_bounded, worths_are_bounded,
};
