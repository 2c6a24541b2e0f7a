// The flow at the costs of moves.
ghost use Rattle.std.specs.Prelude.{◌≡◌, ◌<◌, ◌^◌, length, IfOk, All};
ghost use Rattle.rv_core.specs.Table.{table_of};
ghost use Rattle.loop_walks.specs.Levels.{level_of};
ghost use Rattle.path_places.specs.Duals.{final_level};
ghost use Rattle.path_flows.specs.Flows.{amounts_of, parts_of};
ghost use Rattle.path_places.specs.PlaceLaws.{IsReachedWhole};
ghost use Rattle.path_places.specs.Driver.{blank};
ghost use Rattle.path_values.specs.Costs.{costs_at};
ghost use Rattle.path_walks.specs.Sizes.{AllStaySmall};

use crate::system::flow;
use code_flow_system::{LoopShape, Part, Span, System};
use path_values::prices;
use path_walks::{Priced, Settled};
use rv_core::Costs;
use std::alloc::{AllocError, Global};

/// A system whose moves have prices by their costs.
#[derive(Clone, Copy)]
pub struct Costed<'a> {
    pub system: &'a System,
    pub shapes: &'a [LoopShape],
    pub costs: &'a Costs,
    /// The worth of a block.
    pub low: i128,
}

/// The moves of the flow of a system at the costs of its moves, where the walks found these worths and weights.
pub fn cost_flow(
    alloc: Global,
    costed: Costed,
    spans: &[Span],
    settled: &Settled,
) -> Result<Vec<Part>, AllocError>
    requires whole { IsReachedWhole costed.system.now costed.shapes.now spans.now }
    requires small { AllStaySmall costed.system.now costed.shapes.now (costs_at (table_of costed.costs.now) costed.system.now costed.low) (blank (length costed.system.now.moves) costed.low) spans.now }
    requires level { level_of settled.now.worths settled.now.weights ≡ final_level costed.system.now costed.shapes.now spans.now (costs_at (table_of costed.costs.now) costed.system.now costed.low) }
    requires fits { All (λ u. u < 2 ^ 127) (amounts_of costed.system.now costed.shapes.now spans.now (costs_at (table_of costed.costs.now) costed.system.now costed.low)) }
    ensures { IfOk result (λ v. v.items ≡ parts_of costed.entry.system.now.moves (amounts_of costed.entry.system.now costed.entry.shapes.now spans.now (costs_at (table_of costed.entry.costs.now) costed.entry.system.now costed.entry.low))) }
{
    let Costed {
        system,
        shapes,
        costs,
        low,
    } = costed;
    let prices = prices(alloc, system, costs)?;
    let priced = Priced {
        system,
        shapes,
        prices: &prices,
        low,
    };
    flow(alloc, priced, spans, settled)
}
