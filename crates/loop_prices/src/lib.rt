//! Weak duality for loose flows over a nest of loops: the worths of addresses bound the total of each.
//!
//! Of each address a worth says what is still to come from it, and of each loop what a turn adds at its header. Where
//! each move's price, the worths of where it arrives and of all turns of the loops that it starts there are at most the
//! worth of its address, no loose flow has a total above the unit times the entry's worth. A layout of code gets such
//! worths from how its loops nest, and a search from its walks; both bound the numbers of a certificate by them.
//!
//! The crate has no code but this law. It knows nothing of how worths are found.
#![tactic(auto)]

ghost use Rattle.loop_prices.specs.LoopPrices.{BoundsLooseFlows};

use code_flow_system::System;

/// Prices over a nest of loops bound every loose flow.
pub fn loose_flows_are_bounded(system: &System)
    ensures { BoundsLooseFlows system.now }
{}
