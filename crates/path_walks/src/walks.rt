// The walks of a system, one function after the other.
ghost use Rattle.std.specs.Prelude.{◌≡◌, length, IfOk, OnOk};
ghost use Rattle.loop_walks.specs.Levels.{level_of};
ghost use Rattle.path_places.specs.Duals.{no_pairs, final_level, final_pairs};
ghost use Rattle.path_places.specs.PlaceLaws.{IsReachedWhole};
ghost use Rattle.path_places.specs.Driver.{blank};
ghost use Rattle.path_walks.specs.Prices.{prices_of};
ghost use Rattle.path_walks.specs.Functions.{IsFunction, HasSettled};
ghost use Rattle.path_walks.specs.Sizes.{AllStaySmall};

use crate::deal::deal;
use crate::priced::Priced;
use crate::ring::loops;
use crate::step::steps;
use code_flow_system::Span;
use loop_walks::{Code, Pair};
use loop_worths::settle;
use std::alloc::{AllocError, Global};
use wcc_base::Items;

/// What the walks of a system find.
#[derive(Drop)]
pub struct Settled {
    /// What is still to come at each place, and at the one behind all.
    pub worths: Items<i128>,
    /// What the multipliers add at each place that is a header.
    pub weights: Items<i128>,
    /// The multipliers of each loop.
    pub pairs: Items<Pair>,
}

/// Settles a function, and puts the multipliers of its loops each at its own loop.
fn settle_function(
    alloc: Global,
    priced: Priced,
    span: Span,
    worths: &mut [i128],
    weights: &mut [i128],
    pairs: &mut [Pair],
) -> Result<(), AllocError>
    requires function { IsFunction priced.system.now priced.shapes.now (prices_of priced.system.now priced.prices.now priced.low) (level_of worths.now weights.now) span }
    requires prices { length priced.prices.now ≡ length priced.system.now.moves }
    requires pairs { length pairs.now ≡ length priced.shapes.now }
    ensures { OnOk result (HasSettled priced.entry.system.now priced.entry.shapes.now (prices_of priced.entry.system.now priced.entry.prices.now priced.entry.low) (level_of worths.old weights.old) span pairs.old (level_of worths.new weights.new) pairs.new) }
{
    let steps = steps(alloc, priced, span, worths)?;
    let loops = loops(alloc, priced, span, &steps)?;
    let code = Code {
        steps: &steps,
        loops: &loops,
    };
    let found = settle(alloc, priced.low, worths, weights, code)?;
    deal(priced.system.moves(), span, priced.shapes, pairs, &found);
    Ok(())
}

/// Settles functions, one after the other.
fn settle_functions(
    alloc: Global,
    priced: Priced,
    spans: &[Span],
    worths: &mut [i128],
    weights: &mut [i128],
    pairs: &mut [Pair],
) -> Result<(), AllocError>
    requires whole { IsReachedWhole priced.system.now priced.shapes.now spans.now }
    requires prices { length priced.prices.now ≡ length priced.system.now.moves }
    requires level { level_of worths.now weights.now ≡ blank (length priced.system.now.moves) priced.low }
    requires small { AllStaySmall priced.system.now priced.shapes.now (prices_of priced.system.now priced.prices.now priced.low) (blank (length priced.system.now.moves) priced.low) spans.now }
    requires pairs { pairs.now ≡ no_pairs priced.shapes.now }
    ensures level { OnOk result (level_of worths.new weights.new ≡ final_level priced.entry.system.now priced.entry.shapes.now spans.now (prices_of priced.entry.system.now priced.entry.prices.now priced.entry.low)) }
    ensures pairs { OnOk result (pairs.new ≡ final_pairs priced.entry.system.now priced.entry.shapes.now spans.now (prices_of priced.entry.system.now priced.entry.prices.now priced.entry.low)) }
{
    for i in 0..spans.len() {
        settle_function(alloc, priced, spans[i], worths, weights, pairs)?;
    }
    Ok(())
}

/// The worths, weights and multipliers of a system, its functions in the order of their spans, so that a called function
/// stands before its callers.
pub fn settle_all(alloc: Global, priced: Priced, spans: &[Span]) -> Result<Settled, AllocError>
    requires whole { IsReachedWhole priced.system.now priced.shapes.now spans.now }
    requires prices { length priced.prices.now ≡ length priced.system.now.moves }
    requires small { AllStaySmall priced.system.now priced.shapes.now (prices_of priced.system.now priced.prices.now priced.low) (blank (length priced.system.now.moves) priced.low) spans.now }
    ensures level { IfOk result (λ r. level_of r.worths r.weights ≡ final_level priced.entry.system.now priced.entry.shapes.now spans.now (prices_of priced.entry.system.now priced.entry.prices.now priced.entry.low)) }
    ensures pairs { IfOk result (λ r. r.pairs ≡ final_pairs priced.entry.system.now priced.entry.shapes.now spans.now (prices_of priced.entry.system.now priced.entry.prices.now priced.entry.low)) }
{
    let count = priced.system.moves().len();
    let mut worths = vec![in alloc; priced.low; count]?;
    worths.push(0)?;
    let mut weights = vec![in alloc; 0; count + 1]?;
    let mut pairs = vec![in alloc; Pair { least: 0, most: 0 }; priced.shapes.len()]?;
    settle_functions(alloc, priced, spans, &mut worths, &mut weights, &mut pairs)?;
    Ok(Settled {
        worths: Items::new(worths),
        weights: Items::new(weights),
        pairs: Items::new(pairs),
    })
}
