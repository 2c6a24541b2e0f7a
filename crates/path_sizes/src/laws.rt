// What is proved, by calls with empty bodies.
ghost use Rattle.path_sizes.specs.Sizes.{NumbersFit};
ghost use Rattle.path_sizes.specs.OpenLaws.{FunctionsAreOpen};
ghost use Rattle.path_sizes.specs.DualRanges.{DualsAreNarrow};
ghost use Rattle.path_sizes.specs.CostRanges.{CostsHaveRanges};
ghost use Rattle.rv_core.specs.Table.{table_of};

use code_flow_system::{LoopShape, Span, System};
use rv_core::Costs;

/// A law: all numbers of all functions stay small, and are no larger than a size that is enough.
pub fn numbers_fit(system: &System, shapes: &[LoopShape], spans: &[Span])
    ensures { NumbersFit system.now shapes.now spans.now }
{}

/// A law: open sums have open parts, in each function when it is settled, at any prices.
pub fn functions_are_open(system: &System, shapes: &[LoopShape], spans: &[Span])
    ensures { FunctionsAreOpen system.now shapes.now spans.now }
{}

/// A law: potentials, multipliers and rows are narrow.
pub fn duals_are_narrow(system: &System, shapes: &[LoopShape], spans: &[Span])
    ensures { DualsAreNarrow system.now shapes.now spans.now }
{}

/// A law: the numbers of a search by costs, of its flow and of its certificate have their ranges.
pub fn costs_have_ranges(costs: &Costs, system: &System, shapes: &[LoopShape], spans: &[Span])
    ensures { CostsHaveRanges (table_of costs.now) system.now shapes.now spans.now }
{}
