// The levels of a nest.
ghost use Rattle.std.specs.Prelude.{◌≡◌, ◌<◌, ◌-◌, length, All, IfSome, IfOk, slice_set};
ghost use Rattle.loop_walks.specs.Walks.{head_steps};
ghost use Rattle.loop_walks.specs.Turns.{gain};
ghost use Rattle.loop_walks.specs.Multipliers.{first_weight};
ghost use Rattle.loop_walks.specs.Levels.{level_of, weighed, gains, ground, level_pair, raised, level_by, settled, settled_pairs};
ghost use Rattle.loop_walks.specs.Rows.{AreSteps, AreLoops, ArePaid, AreSettled, HaveNone};
ghost use Rattle.loop_worths.specs.Rings.{IsRing};
ghost use Rattle.loop_worths.specs.Sizes.{IsSmall, AreSmall, HaveSmallPrices, IsSmallTurn, AreSmallTurns, IsSmallLevel, AreSmallLevels, StaysSmall};
ghost use Rattle.loop_worths.specs.Outcomes.{AreLevels};

use crate::pair::{back_worth, first_weight, pair_of, weight_of};
use crate::turn::gain;
use crate::walk::{larger, onward, walk};
use loop_walks::{Code, Loop, Pair, Step};
use std::alloc::{AllocError, Global};

/// Gives a loop's header its first weight, and says what a turn gains.
fn weigh_one(
    alloc: Global,
    low: i128,
    weights: &mut [i128],
    ring: Loop,
    steps: &[Step],
) -> Result<i128, AllocError>
    requires fits { IsRing (length weights.now) steps.now ring }
    requires low { IsSmall low }
    requires small { IsSmallTurn low weights.now steps.now ring }
    ensures gain { IfOk result (λ g. g ≡ gain low weights.old ring steps.now) }
    ensures weight { IfOk result (λ g. weights.new ≡ slice_set weights.old ring.header (first_weight low ring g)) }
{
    let gain = gain(alloc, low, weights, ring, steps)?;
    weights[ring.header] = first_weight(low, ring, gain);
    Ok(gain)
}

/// Gives all headers their first weights, the inmost loops' first, and says what a turn of each loop gains.
fn weigh(
    alloc: Global,
    low: i128,
    weights: &mut [i128],
    code: Code,
) -> Result<Vec<i128>, AllocError>
    requires loops { All (IsRing (length weights.now) code.steps.now) code.loops.now }
    requires low { IsSmall low }
    requires small { AreSmallTurns low code.steps.now weights.now code.loops.now }
    ensures gains { IfOk result (λ v. v.items ≡ gains low code.entry.steps.now weights.old code.entry.loops.now) }
    ensures weights { IfOk result (λ v. weights.new ≡ weighed low code.entry.steps.now weights.old code.entry.loops.now) }
{
    let mut gains = vec![in alloc; 0; code.loops.len()]?;
    for k in 0..code.loops.len() {
        let i = code.loops.len() - 1 - k;
        gains[i] = weigh_one(alloc, low, weights, code.loops[i], code.steps)?;
    }
    Ok(gains)
}

/// The walk to the ends, as long as no loop is settled: gives all headers their first weights, the places their worths,
/// and says what a turn of each loop gains.
pub fn ground(
    alloc: Global,
    low: i128,
    worths: &mut [i128],
    weights: &mut [i128],
    code: Code,
) -> Result<Vec<i128>, AllocError>
    requires long { length weights.now ≡ length worths.now }
    requires some { 0 < length worths.now }
    requires steps { AreSteps (length worths.now - 1) code.steps.now }
    requires loops { AreLoops (length worths.now - 1) code.steps.now code.loops.now }
    requires small { StaysSmall low code.steps.now (level_of worths.now weights.now) code.loops.now }
    ensures gains { IfOk result (λ v. v.items ≡ gains low code.entry.steps.now weights.old code.entry.loops.now) }
    ensures worths { IfOk result (λ v. worths.new ≡ (ground low code.entry.steps.now (level_of worths.old weights.old) code.entry.loops.now).worths) }
    ensures weights { IfOk result (λ v. weights.new ≡ (ground low code.entry.steps.now (level_of worths.old weights.old) code.entry.loops.now).weights) }
{
    let gains = weigh(alloc, low, weights, code)?;
    walk(weights, worths, code.steps);
    Ok(gains)
}

/// A loop's multipliers at its level.
fn level_pair(low: i128, worths: &[i128], ring: Loop, gain: i128, steps: &[Step]) -> Pair
    requires fits { IsRing (length worths.now) steps.now ring }
    requires low { IsSmall low }
    requires gain { IsSmall gain }
    requires prices { HaveSmallPrices (head_steps ring steps.now) }
    requires worths { AreSmall worths.now }
    ensures { result ≡ level_pair low steps.now worths.now ring gain }
{
    let onward = onward(low, worths, &steps[ring.head..ring.body]);
    pair_of(ring, gain, onward, worths[ring.header])
}

/// The jump back, if it isn't the header, is worth so much at least.
fn raise(worths: &mut [i128], ring: Loop, worth: i128)
    requires { IfSome ring.back (λ b. b < length worths.now) }
    ensures { worths.new ≡ raised worths.old ring ring.back worth }
{
    if let Some(back) = ring.back {
        if back != ring.header {
            worths[back] = larger(worths[back], worth);
        }
    }
}

/// Settles a loop: its weight, its jump back, and another walk over its steps.
fn level(worths: &mut [i128], weights: &mut [i128], ring: Loop, pair: Pair, steps: &[Step])
    requires long { length weights.now ≡ length worths.now }
    requires fits { IsRing (length worths.now) steps.now ring }
    requires small { IsSmallLevel steps.now (level_of worths.now weights.now) ring pair }
    ensures worths { worths.new ≡ (level_by steps.now (level_of worths.old weights.old) ring pair).worths }
    ensures weights { weights.new ≡ (level_by steps.now (level_of worths.old weights.old) ring pair).weights }
{
    let back = back_worth(ring, worths[ring.header], pair);
    weights[ring.header] = weight_of(ring, pair);
    raise(worths, ring, back);
    walk(weights, worths, &steps[ring.body..ring.rest]);
}

/// Settles the loops, the outermost first, where a turn of each gains so much.
fn settle_loops(
    alloc: Global,
    low: i128,
    worths: &mut [i128],
    weights: &mut [i128],
    code: Code,
    gains: &[i128],
) -> Result<Vec<Pair>, AllocError>
    requires long { length weights.now ≡ length worths.now }
    requires loops { All (IsRing (length worths.now) code.steps.now) code.loops.now }
    requires gains { length gains.now ≡ length code.loops.now }
    requires low { IsSmall low }
    requires small { AreSmallLevels low code.steps.now (level_of worths.now weights.now) code.loops.now gains.now }
    ensures { IfOk result (λ ps. AreLevels low code.entry.steps.now (level_of worths.old weights.old) code.entry.loops.now gains.now (level_of worths.new weights.new) ps.items) }
{
    let mut pairs = Vec::new(alloc);
    for i in 0..code.loops.len() {
        let pair = level_pair(low, worths, code.loops[i], gains[i], code.steps);
        level(worths, weights, code.loops[i], pair, code.steps);
        pairs.push(pair)?;
    }
    Ok(pairs)
}

/// What is still to come at each place of a function, the weights of its headers, and the multipliers of its loops, at
/// the prices of its steps. `low` is the worth of a block, and before the call that of each place of the function.
pub fn settle(
    alloc: Global,
    low: i128,
    worths: &mut [i128],
    weights: &mut [i128],
    code: Code,
) -> Result<Vec<Pair>, AllocError>
    requires long { length weights.now ≡ length worths.now }
    requires some { 0 < length worths.now }
    requires steps { AreSteps (length worths.now - 1) code.steps.now }
    requires loops { AreLoops (length worths.now - 1) code.steps.now code.loops.now }
    requires none { HaveNone weights.now code.loops.now }
    requires small { StaysSmall low code.steps.now (level_of worths.now weights.now) code.loops.now }
    ensures worths { IfOk result (λ ps. worths.new ≡ (settled low code.entry.steps.now (level_of worths.old weights.old) code.entry.loops.now).worths) }
    ensures weights { IfOk result (λ ps. weights.new ≡ (settled low code.entry.steps.now (level_of worths.old weights.old) code.entry.loops.now).weights) }
    ensures pairs { IfOk result (λ ps. ps.items ≡ settled_pairs low code.entry.steps.now (level_of worths.old weights.old) code.entry.loops.now) }
    ensures paid { IfOk result (λ ps. ArePaid (level_of worths.new weights.new) code.entry.steps.now) }
    ensures settled { IfOk result (λ ps. AreSettled (level_of worths.new weights.new) code.entry.loops.now ps.items) }
{
    let gains = ground(alloc, low, worths, weights, code)?;
    settle_loops(alloc, low, worths, weights, code, &gains)
}
