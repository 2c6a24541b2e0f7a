// Greatest flows, and answers of the first phase.
ghost use Rattle.rv_core.specs.Table.{table_of};
ghost use Rattle.path_fact_columns.specs.OptimumLaws.{SolvedAreGreatest, FirstAnswersAreBest};

use code_flow_system::{LoopShape, Span, System};
use rv_core::Costs;

/// A law: where the answer at a round's multipliers doesn't improve on the round, the weighted flow is the greatest.
pub fn solved_are_greatest(system: &System, shapes: &[LoopShape], spans: &[Span], costs: &Costs)
    ensures { SolvedAreGreatest (table_of costs.now) system.now shapes.now spans.now }
{}

/// A law: the answer at the first phase's multipliers is best for the totals alone, where there may be a flow.
pub fn first_answers_are_best(system: &System, shapes: &[LoopShape], spans: &[Span], costs: &Costs)
    ensures { FirstAnswersAreBest (table_of costs.now) system.now shapes.now spans.now }
{}
