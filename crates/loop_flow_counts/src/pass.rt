// A pass: amounts are handed on along chosen steps.
ghost use Rattle.std.specs.Prelude.{◌≡◌, true, length, IfOk, All};
ghost use Rattle.loop_walks.specs.Levels.{level_of};
ghost use Rattle.loop_flows.specs.Passes.{made, handed, spread};
ghost use Rattle.loop_flows.specs.Turns.{is_tight};
ghost use Rattle.loop_worths.specs.Rings.{IsWalkStep};
ghost use Rattle.loop_worths.specs.Sizes.{IsSmall, AreSmall, HaveSmallPrices};
ghost use Rattle.loop_flow_counts.specs.Wraps.{SameCounts};

use crate::count::add;
use loop_walks::Step;
use loop_worths::sum;
use std::alloc::{AllocError, Global};

/// Takes all that is at a step's place, and hands it on.
fn make(amounts: &mut [u128], step: Step) -> u128
    requires { IsWalkStep (length amounts.now) step }
    ensures made { result ≡ made true amounts.old step }
    ensures handed { SameCounts amounts.new (handed true amounts.old step) }
{
    let all = amounts[step.at];
    amounts[step.at] = 0;
    add(amounts, step.on, all);
    all
}

/// Makes a step if it is chosen, and says how often.
pub(crate) fn make_if(chosen: bool, amounts: &mut [u128], step: Step) -> u128
    requires { IsWalkStep (length amounts.now) step }
    ensures made { result ≡ made chosen amounts.old step }
    ensures handed { SameCounts amounts.new (handed chosen amounts.old step) }
{
    if chosen {
        return make(amounts, step);
    }
    0
}

/// Whether a step costs all that the worth falls along it.
fn is_tight(weights: &[i128], worths: &[i128], step: Step) -> bool
    requires long { length weights.now ≡ length worths.now }
    requires step { IsWalkStep (length worths.now) step }
    requires price { IsSmall step.price }
    requires weights { AreSmall weights.now }
    requires worths { AreSmall worths.now }
    ensures { result ≡ is_tight (level_of worths.now weights.now) step }
{
    worths[step.at] <= sum(step.price, weights[step.at], worths[step.on])
}

/// How often each step is made on the way to the ends, of what is at each place.
pub(crate) fn end_pass(
    alloc: Global,
    weights: &[i128],
    worths: &[i128],
    amounts: &mut [u128],
    steps: &[Step],
) -> Result<Vec<u128>, AllocError>
    requires long { length weights.now ≡ length worths.now }
    requires amounts { length amounts.now ≡ length worths.now }
    requires steps { All (IsWalkStep (length worths.now)) steps.now }
    requires prices { HaveSmallPrices steps.now }
    requires weights { AreSmall weights.now }
    requires worths { AreSmall worths.now }
    ensures { IfOk result (λ v. SameCounts v.items (spread (is_tight (level_of worths.now weights.now)) amounts.old steps.now)) }
{
    let mut counts = Vec::new(alloc);
    for k in 0..steps.len() {
        let chosen = is_tight(weights, worths, steps[k]);
        counts.push(make_if(chosen, amounts, steps[k]))?;
    }
    Ok(counts)
}
