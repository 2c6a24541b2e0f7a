// The flow at prices that pay for facts.
ghost use Rattle.std.specs.Prelude.{◌≡◌, ◌<◌, ◌^◌, length, IfOk, All};
ghost use Rattle.rv_core.specs.Table.{table_of};
ghost use Rattle.loop_walks.specs.Levels.{level_of};
ghost use Rattle.path_places.specs.Duals.{final_level};
ghost use Rattle.path_flows.specs.Flows.{amounts_of, parts_of};
ghost use Rattle.path_places.specs.PlaceLaws.{IsReachedWhole};
ghost use Rattle.path_places.specs.Driver.{blank};
ghost use Rattle.path_walks.specs.Sizes.{AllStaySmall};
ghost use Rattle.path_cert.specs.Priced.{fact_prices};
ghost use Rattle.path_fact_walks.specs.Sizes.{AreMultiplied};

use crate::pricing::{Multiplied, prices};
use code_flow_system::{Part, Span};
use path_flow_counts::flow;
use path_walks::{Priced, Settled};
use std::alloc::{AllocError, Global};

/// The moves of the flow of a system at prices that pay for its facts, where the walks found these worths and weights.
pub fn fact_flow(
    alloc: Global,
    multiplied: Multiplied,
    spans: &[Span],
    settled: &Settled,
) -> Result<Vec<Part>, AllocError>
    requires whole { IsReachedWhole multiplied.system.now multiplied.shapes.now spans.now }
    requires fits { AreMultiplied multiplied.system.now multiplied.scale multiplied.facts.now }
    requires small { AllStaySmall multiplied.system.now multiplied.shapes.now (fact_prices (table_of multiplied.costs.now) multiplied.system.now multiplied.scale multiplied.facts.now multiplied.low) (blank (length multiplied.system.now.moves) multiplied.low) spans.now }
    requires level { level_of settled.now.worths settled.now.weights ≡ final_level multiplied.system.now multiplied.shapes.now spans.now (fact_prices (table_of multiplied.costs.now) multiplied.system.now multiplied.scale multiplied.facts.now multiplied.low) }
    requires amounts { All (λ u. u < 2 ^ 127) (amounts_of multiplied.system.now multiplied.shapes.now spans.now (fact_prices (table_of multiplied.costs.now) multiplied.system.now multiplied.scale multiplied.facts.now multiplied.low)) }
    ensures { IfOk result (λ v. v.items ≡ parts_of multiplied.entry.system.now.moves (amounts_of multiplied.entry.system.now multiplied.entry.shapes.now spans.now (fact_prices (table_of multiplied.entry.costs.now) multiplied.entry.system.now multiplied.entry.scale multiplied.entry.facts.now multiplied.entry.low))) }
{
    let prices = prices(alloc, multiplied)?;
    let Multiplied {
        system,
        shapes,
        low,
        ..
    } = multiplied;
    let priced = Priced {
        system,
        shapes,
        prices: &prices,
        low,
    };
    flow(alloc, priced, spans, settled)
}
