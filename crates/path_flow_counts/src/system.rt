// The flow of a system.
ghost use Rattle.std.specs.Prelude.{◌≡◌, ◌+◌, ◌<◌, ◌^◌, length, IfOk, OnOk, All};
ghost use Rattle.loop_walks.specs.Levels.{level_of};
ghost use Rattle.loop_flow_counts.specs.Wraps.{SameCounts};
ghost use Rattle.path_places.specs.Duals.{final_level};
ghost use Rattle.path_flows.specs.Flows.{first_flow, amounts_of, parts_of};
ghost use Rattle.path_places.specs.PlaceLaws.{IsReachedWhole};
ghost use Rattle.path_places.specs.Driver.{blank};
ghost use Rattle.path_walks.specs.Prices.{prices_of};
ghost use Rattle.path_walks.specs.Sizes.{AllStaySmall};
ghost use Rattle.path_flow_counts.specs.Sums.{flowing};

use crate::function::add_function;
use crate::parts::{copied, parts};
use crate::put::unsettle;
use crate::tally::Tally;
use code_flow_system::{Part, Span};
use path_walks::{Priced, Settled, place_of};
use std::alloc::{AllocError, Global};

/// Adds the flows of functions, the last one first.
fn add_functions(
    alloc: Global,
    priced: Priced,
    spans: &[Span],
    worths: &mut [i128],
    weights: &mut [i128],
    tally: &mut Tally,
) -> Result<(), AllocError>
    requires whole { IsReachedWhole priced.system.now priced.shapes.now spans.now }
    requires prices { length priced.prices.now ≡ length priced.system.now.moves }
    requires small { AllStaySmall priced.system.now priced.shapes.now (prices_of priced.system.now priced.prices.now priced.low) (blank (length priced.system.now.moves) priced.low) spans.now }
    requires level { level_of worths.now weights.now ≡ final_level priced.system.now priced.shapes.now spans.now (prices_of priced.system.now priced.prices.now priced.low) }
    requires room { length tally.now.room.now ≡ length priced.system.now.moves + 1 }
    requires flow { flowing tally.now.starts.now tally.now.amounts.now ≡ first_flow priced.system.now }
    ensures amounts { OnOk result (length tally.new.amounts.now ≡ length tally.old.amounts.now) }
    ensures flow { OnOk result (SameCounts tally.new.amounts.now (amounts_of priced.entry.system.now priced.entry.shapes.now spans.now (prices_of priced.entry.system.now priced.entry.prices.now priced.entry.low))) }
{
    for k in 0..spans.len() {
        let span = spans[spans.len() - 1 - k];
        unsettle(priced, span, worths, weights);
        add_function(alloc, priced, span, worths, weights, tally)?;
        unsettle(priced, span, worths, weights);
    }
    Ok(())
}

/// The moves of the flow of a system, from the worths and weights of its walks.
fn list_flow(
    alloc: Global,
    priced: Priced,
    spans: &[Span],
    worths: &mut [i128],
    weights: &mut [i128],
    tally: &mut Tally,
) -> Result<Vec<Part>, AllocError>
    requires whole { IsReachedWhole priced.system.now priced.shapes.now spans.now }
    requires prices { length priced.prices.now ≡ length priced.system.now.moves }
    requires small { AllStaySmall priced.system.now priced.shapes.now (prices_of priced.system.now priced.prices.now priced.low) (blank (length priced.system.now.moves) priced.low) spans.now }
    requires level { level_of worths.now weights.now ≡ final_level priced.system.now priced.shapes.now spans.now (prices_of priced.system.now priced.prices.now priced.low) }
    requires room { length tally.now.room.now ≡ length priced.system.now.moves + 1 }
    requires flow { flowing tally.now.starts.now tally.now.amounts.now ≡ first_flow priced.system.now }
    requires fits { All (λ u. u < 2 ^ 127) (amounts_of priced.system.now priced.shapes.now spans.now (prices_of priced.system.now priced.prices.now priced.low)) }
    ensures { IfOk result (λ v. v.items ≡ parts_of priced.entry.system.now.moves (amounts_of priced.entry.system.now priced.entry.shapes.now spans.now (prices_of priced.entry.system.now priced.entry.prices.now priced.entry.low))) }
{
    add_functions(alloc, priced, spans, worths, weights, tally)?;
    parts(alloc, priced.system.moves(), tally.amounts)
}

/// The moves of the flow of a system, where the walks found these worths and weights.
pub fn flow(
    alloc: Global,
    priced: Priced,
    spans: &[Span],
    settled: &Settled,
) -> Result<Vec<Part>, AllocError>
    requires whole { IsReachedWhole priced.system.now priced.shapes.now spans.now }
    requires prices { length priced.prices.now ≡ length priced.system.now.moves }
    requires small { AllStaySmall priced.system.now priced.shapes.now (prices_of priced.system.now priced.prices.now priced.low) (blank (length priced.system.now.moves) priced.low) spans.now }
    requires level { level_of settled.now.worths settled.now.weights ≡ final_level priced.system.now priced.shapes.now spans.now (prices_of priced.system.now priced.prices.now priced.low) }
    requires fits { All (λ u. u < 2 ^ 127) (amounts_of priced.system.now priced.shapes.now spans.now (prices_of priced.system.now priced.prices.now priced.low)) }
    ensures { IfOk result (λ v. v.items ≡ parts_of priced.entry.system.now.moves (amounts_of priced.entry.system.now priced.entry.shapes.now spans.now (prices_of priced.entry.system.now priced.entry.prices.now priced.entry.low))) }
{
    let moves = priced.system.moves();
    let mut worths = copied(alloc, settled.worths.as_slice())?;
    let mut weights = copied(alloc, settled.weights.as_slice())?;
    let mut room = vec![in alloc; 0; moves.len() + 1]?;
    let mut starts = vec![in alloc; 0; moves.len() + 1]?;
    let mut amounts = vec![in alloc; 0; moves.len()]?;
    starts[place_of(moves, priced.system.entry())] = 1;
    let mut tally = Tally {
        starts: &mut starts,
        amounts: &mut amounts,
        room: &mut room,
    };
    list_flow(alloc, priced, spans, &mut worths, &mut weights, &mut tally)
}
