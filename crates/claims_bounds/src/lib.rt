//! Why the greatest flow of a laid program can be searched for: its own claims bound all of its loops, and its numbers are small.
//!
//! A program over places in its chosen forms, with the claims that are made of it (`claims_definition`), has a flow
//! system. Proved, each by a call with an empty body: [`loops_are_bounded`], that its loop claims bound the loops of
//! its graph; [`flows_keep_bounds`], that per unit the counts of a loose flow add up to at most the program's
//! weight, those at the addresses of a mark to at most the mark's reach, and its value is at most 4000 times the
//! weight; and [`laid_can_bound`], that the system is one that a search takes.
//!
//! `specs/Bounds` says what a program keeps for that besides its form: no loop has to start more often than it may, and its
//! weight leaves room for the numbers of a search: values are below 2^60 then, and counts below 2^49. That no loop's jump
//! back is the header of another one comes from how loops nest, and that no function is empty from how code is laid.
//!
//! The crate joins `claims_definition` and `asm_prices` with what `path_search` asks for, and knows no runs.
#![tactic(auto)]

ghost use Rattle.rv_core.specs.Table.{table_of};
ghost use Rattle.claims_bounds.specs.Flows.{LoopsAreBounded, FlowsKeepBounds};
ghost use Rattle.claims_bounds.specs.Bounds.{LaidCanBound};

use rv_core::Costs;

/// The loop claims of a settled program bound the loops of its graph.
pub fn loops_are_bounded()
    ensures { LoopsAreBounded }
{}

/// The counts of a loose flow, those at the addresses of each mark, and its value have their bounds.
pub fn flows_keep_bounds(costs: &Costs)
    ensures { FlowsKeepBounds (table_of costs.now) }
{}

/// The flow system of an image that holds a program, under the claims on it, is one of those that `path_search::bound`
/// takes: with the shapes of its loop claims, and the spans of its functions and of the start code.
pub fn laid_can_bound(costs: &Costs)
    ensures { LaidCanBound (table_of costs.now) }
{}
