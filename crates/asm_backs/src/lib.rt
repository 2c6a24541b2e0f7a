//! Back edges: how often loops of laid code jump back, in its flows and in its runs.
//!
//! Proved, by calls with empty bodies: [`latches_are_counted`], that in each flow that is conserved the last instruction of a loop's
//! latch is counted as often as its first one, also where the latch is a far jump of two instructions; and [`latches_are_visited`],
//! that a run which has ended visits the two as often. Such a run is a flow, whatever restrictions it keeps: with those that say how
//! the two counts are to that of the entry, counts of the flow are equal only where those of the run are. So what is known of how
//! often latches begin is known of the jumps back that loop claims name.
//!
//! The crate knows no claims on loops and no program.
#![tactic(auto)]

mod laws;

pub use laws::{latches_are_counted, latches_are_visited};
