// The walks at the costs of moves.
ghost use Rattle.std.specs.Prelude.{◌≡◌, length, IfOk};
ghost use Rattle.rv_core.specs.Table.{table_of};
ghost use Rattle.loop_walks.specs.Levels.{level_of};
ghost use Rattle.path_places.specs.Duals.{final_level, final_pairs};
ghost use Rattle.path_places.specs.PlaceLaws.{IsReachedWhole};
ghost use Rattle.path_places.specs.Driver.{blank};
ghost use Rattle.path_walks.specs.Sizes.{AllStaySmall};
ghost use Rattle.path_values.specs.Costs.{costs_at};

use crate::price::prices;
use code_flow_system::{LoopShape, Span, System};
use path_walks::{Priced, Settled, settle_all};
use rv_core::Costs;
use std::alloc::{AllocError, Global};

/// The worths, weights and multipliers of a system at the costs of its moves, where a block is worth `low`.
pub fn settle_costs(
    alloc: Global,
    system: &System,
    costs: &Costs,
    shapes: &[LoopShape],
    spans: &[Span],
    low: i128,
) -> Result<Settled, AllocError>
    requires whole { IsReachedWhole system.now shapes.now spans.now }
    requires small { AllStaySmall system.now shapes.now (costs_at (table_of costs.now) system.now low) (blank (length system.now.moves) low) spans.now }
    ensures level { IfOk result (λ r. level_of r.worths r.weights ≡ final_level system.now shapes.now spans.now (costs_at (table_of costs.now) system.now low)) }
    ensures pairs { IfOk result (λ r. r.pairs ≡ final_pairs system.now shapes.now spans.now (costs_at (table_of costs.now) system.now low)) }
{
    let prices = prices(alloc, system, costs)?;
    let priced = Priced {
        system,
        shapes,
        prices: &prices,
        low,
    };
    settle_all(alloc, priced, spans)
}
