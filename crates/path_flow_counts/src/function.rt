// The flow of one function.
ghost use Rattle.std.specs.Prelude.{◌≡◌, ◌+◌, length, IfOk, OnOk};
ghost use Rattle.loop_walks.specs.Levels.{level_of};
ghost use Rattle.path_flows.specs.Flows.{function_ground, function_flow};
ghost use Rattle.path_walks.specs.Functions.{IsFunction};
ghost use Rattle.path_walks.specs.Prices.{prices_of};
ghost use Rattle.path_flow_counts.specs.Sums.{IsMade, SameFlow, flowing};

use crate::put::copy;
use crate::sums::{add_backs, add_counts};
use crate::tally::Tally;
use code_flow_system::Span;
use loop_flow_counts::{Made, flow};
use loop_walks::Code;
use path_walks::{Priced, loops, place_of, steps};
use std::alloc::{AllocError, Global};

/// How often the steps of a function and its jumps back are made, at the worths and weights before it is settled; after
/// the call the worths are those of its walk to the ends.
fn steps_made(
    alloc: Global,
    priced: Priced,
    span: Span,
    worths: &mut [i128],
    weights: &mut [i128],
    tally: &mut Tally,
) -> Result<Made, AllocError>
    requires function { IsFunction priced.system.now priced.shapes.now (prices_of priced.system.now priced.prices.now priced.low) (level_of worths.now weights.now) span }
    requires prices { length priced.prices.now ≡ length priced.system.now.moves }
    requires room { length tally.now.room.now ≡ length priced.system.now.moves + 1 }
    requires starts { length tally.now.starts.now ≡ length priced.system.now.moves + 1 }
    ensures worths { OnOk result (worths.new ≡ (function_ground priced.entry.system.now priced.entry.shapes.now (prices_of priced.entry.system.now priced.entry.prices.now priced.entry.low) (level_of worths.old weights.old) span).worths) }
    ensures weights { OnOk result (weights.new ≡ weights.old) }
    ensures room { OnOk result (length tally.new.room.now ≡ length tally.old.room.now) }
    ensures starts { OnOk result (tally.new.starts.now ≡ tally.old.starts.now) }
    ensures amounts { OnOk result (tally.new.amounts.now ≡ tally.old.amounts.now) }
    ensures made { IfOk result (λ made. IsMade priced.entry.system.now priced.entry.shapes.now (prices_of priced.entry.system.now priced.entry.prices.now priced.entry.low) (level_of worths.old weights.old) span tally.old.starts.now made.counts.items made.backs.items) }
{
    let steps = steps(alloc, priced, span, worths)?;
    let loops = loops(alloc, priced, span, &steps)?;
    let code = Code {
        steps: &steps,
        loops: &loops,
    };
    let moves = priced.system.moves();
    let first = place_of(moves, span.first);
    let end = place_of(moves, span.end);
    copy(tally, first, end);
    let made = flow(alloc, priced.low, worths, weights, code, tally.room)?;
    Ok(made)
}

/// Adds the flow of a function to that of a system, at the worths and weights before it is settled; after the call the
/// worths are those of its walk to the ends.
pub(crate) fn add_function(
    alloc: Global,
    priced: Priced,
    span: Span,
    worths: &mut [i128],
    weights: &mut [i128],
    tally: &mut Tally,
) -> Result<(), AllocError>
    requires function { IsFunction priced.system.now priced.shapes.now (prices_of priced.system.now priced.prices.now priced.low) (level_of worths.now weights.now) span }
    requires prices { length priced.prices.now ≡ length priced.system.now.moves }
    requires room { length tally.now.room.now ≡ length priced.system.now.moves + 1 }
    requires starts { length tally.now.starts.now ≡ length priced.system.now.moves + 1 }
    requires amounts { length tally.now.amounts.now ≡ length priced.system.now.moves }
    ensures worths { OnOk result (worths.new ≡ (function_ground priced.entry.system.now priced.entry.shapes.now (prices_of priced.entry.system.now priced.entry.prices.now priced.entry.low) (level_of worths.old weights.old) span).worths) }
    ensures weights { OnOk result (weights.new ≡ weights.old) }
    ensures room { OnOk result (length tally.new.room.now ≡ length tally.old.room.now) }
    ensures starts { OnOk result (length tally.new.starts.now ≡ length tally.old.starts.now) }
    ensures amounts { OnOk result (length tally.new.amounts.now ≡ length tally.old.amounts.now) }
    ensures flow { OnOk result (SameFlow (flowing tally.new.starts.now tally.new.amounts.now) (function_flow priced.entry.system.now priced.entry.shapes.now (prices_of priced.entry.system.now priced.entry.prices.now priced.entry.low) (level_of worths.old weights.old) span (flowing tally.old.starts.now tally.old.amounts.now))) }
{
    let made = steps_made(alloc, priced, span, worths, weights, tally)?;
    add_counts(priced, span, &made.counts, tally);
    add_backs(tally.amounts, &made.backs);
    Ok(())
}
