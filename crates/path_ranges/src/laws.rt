// What is proved, by calls with empty bodies.
ghost use Rattle.path_places.specs.PlaceLaws.{IsReachedWhole};
ghost use Rattle.path_ranges.specs.LooseLaws.{LooseWorthsAreTotals};
ghost use Rattle.path_ranges.specs.Ranges.{WalksAreBounded, WorthsAreBounded};
ghost use Rattle.rv_core.specs.Table.{table_of};
ghost use Rattle.path_ranges.specs.Limits.{CostsAreBounded};
ghost use Rattle.path_ranges.specs.Narrow.{LooseCountsBelow, LimitsAreNarrow};

use code_flow_system::{LoopShape, Span, System};
use rv_core::Costs;

/// A law: where no loose flow of one unit has a total above a bound, no worth of the loose walks is above it.
pub fn loose_worths_are_totals(system: &System, shapes: &[LoopShape], spans: &[Span])
    requires { IsReachedWhole system.now shapes.now spans.now }
    ensures { LooseWorthsAreTotals system.now shapes.now spans.now }
{}

/// A law: each function has loose numbers below the bound when it is settled.
pub fn walks_are_bounded(system: &System, shapes: &[LoopShape], spans: &[Span])
    ensures { WalksAreBounded system.now shapes.now spans.now }
{}

/// A law: how far the worths of all places reach.
pub fn worths_are_bounded(system: &System, shapes: &[LoopShape], spans: &[Span])
    ensures { WorthsAreBounded system.now shapes.now spans.now }
{}

/// A law: the numbers of a search by costs have bounds.
pub fn costs_are_bounded(costs: &Costs, system: &System, shapes: &[LoopShape], spans: &[Span])
    ensures { CostsAreBounded (table_of costs.now) system.now shapes.now spans.now }
{}

/// A law: no count of a loose flow is larger than its value.
pub fn loose_counts_are_below(costs: &Costs, system: &System)
    ensures { LooseCountsBelow (table_of costs.now) system.now }
{}

/// A law: the terms of limits are narrow at counts below a bound of at most 2^93.
pub fn limits_are_narrow(system: &System)
    ensures { LimitsAreNarrow system.now.claims }
{}
