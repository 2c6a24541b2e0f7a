// The walks at prices that pay for facts.
ghost use Rattle.std.specs.Prelude.{◌≡◌, length, IfOk};
ghost use Rattle.rv_core.specs.Table.{table_of};
ghost use Rattle.loop_walks.specs.Levels.{level_of};
ghost use Rattle.path_places.specs.Duals.{final_level, final_pairs};
ghost use Rattle.path_places.specs.PlaceLaws.{IsReachedWhole};
ghost use Rattle.path_places.specs.Driver.{blank};
ghost use Rattle.path_walks.specs.Sizes.{AllStaySmall};
ghost use Rattle.path_cert.specs.Priced.{fact_prices};
ghost use Rattle.path_fact_walks.specs.Sizes.{AreMultiplied};

use crate::pricing::{Multiplied, prices};
use code_flow_system::Span;
use path_walks::{Priced, Settled, settle_all};
use std::alloc::{AllocError, Global};

/// The worths, weights and multipliers of a system at prices that pay for its facts.
pub fn settle_facts(
    alloc: Global,
    multiplied: Multiplied,
    spans: &[Span],
) -> Result<Settled, AllocError>
    requires whole { IsReachedWhole multiplied.system.now multiplied.shapes.now spans.now }
    requires fits { AreMultiplied multiplied.system.now multiplied.scale multiplied.facts.now }
    requires small { AllStaySmall multiplied.system.now multiplied.shapes.now (fact_prices (table_of multiplied.costs.now) multiplied.system.now multiplied.scale multiplied.facts.now multiplied.low) (blank (length multiplied.system.now.moves) multiplied.low) spans.now }
    ensures level { IfOk result (λ r. level_of r.worths r.weights ≡ final_level multiplied.entry.system.now multiplied.entry.shapes.now spans.now (fact_prices (table_of multiplied.entry.costs.now) multiplied.entry.system.now multiplied.entry.scale multiplied.entry.facts.now multiplied.entry.low)) }
    ensures pairs { IfOk result (λ r. r.pairs ≡ final_pairs multiplied.entry.system.now multiplied.entry.shapes.now spans.now (fact_prices (table_of multiplied.entry.costs.now) multiplied.entry.system.now multiplied.entry.scale multiplied.entry.facts.now multiplied.entry.low)) }
{
    let prices = prices(alloc, multiplied)?;
    let Multiplied {
        system,
        shapes,
        low,
        ..
    } = multiplied;
    let priced = Priced {
        system,
        shapes,
        prices: &prices,
        low,
    };
    settle_all(alloc, priced, spans)
}
