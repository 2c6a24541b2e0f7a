// The further turns of loops.
ghost use Rattle.std.specs.Prelude.{◌≡◌, ◌-◌, ◌<◌, [], ◌∷◌, ◌++◌, length, IfOk, OnOk};
ghost use Rattle.std.specs.Option.{option_to_list};
ghost use Rattle.loop_walks.specs.Levels.{weighed};
ghost use Rattle.loop_walks.specs.Rows.{AreSteps, AreLoops, IsLoopOf, HaveNone};
ghost use Rattle.loop_walks.specs.Turns.{way_at, turn_ways};
ghost use Rattle.loop_flows.specs.Turns.{turning_of, with_way, with_back, turnings};
ghost use Rattle.loop_worths.specs.Sizes.{HaveSmallPrices, IsSmallTurn, AreSmallTurns};
ghost use Rattle.loop_flow_counts.specs.Made.{HasTurned, bared};

use crate::back::Back;
use crate::count::times;
use crate::turn::{Weighed, further_turns, turn_pass};
use loop_walks::{Code, Loop};
use loop_worths::{gain_by, turn_ways, way_at};
use std::alloc::{AllocError, Global};

/// Makes the further turns of a loop whose ways to the jump back are these.
fn turn_along(
    weighed: Weighed,
    ring: Loop,
    back: usize,
    ways: &[Option<i128>],
    amounts: &mut [u128],
    counts: &mut [u128],
) -> Back
    requires some { 0 < length weighed.weights.now }
    requires steps { AreSteps (length weighed.weights.now - 1) weighed.steps.now }
    requires ring { IsLoopOf (length weighed.weights.now - 1) weighed.steps.now ring }
    requires amounts { length amounts.now ≡ length weighed.weights.now }
    requires counts { length counts.now ≡ length weighed.steps.now }
    requires prices { HaveSmallPrices weighed.steps.now }
    requires small { IsSmallTurn weighed.low weighed.weights.now weighed.steps.now ring }
    requires all { ways.now ≡ turn_ways weighed.low weighed.weights.now ring weighed.steps.now }
    ensures { HasTurned (length weighed.entry.weights.now - 1) weighed.entry.steps.now counts.old (turning_of weighed.entry.low weighed.entry.weights.now ring weighed.entry.steps.now (turn_ways weighed.entry.low weighed.entry.weights.now ring weighed.entry.steps.now) back ∷ []) counts.new (result ∷ []) }
{
    let gain = gain_by(weighed.low, ring.price, way_at(ways, 0));
    let count = times(further_turns(ring, gain), &counts[ring.head..ring.body]);
    turn_pass(weighed, ring, ways, count, amounts, counts);
    Back { place: back, count }
}

/// Makes the further turns of a loop, if there is a way from its header to its jump back.
fn turn_loop(
    alloc: Global,
    weighed: Weighed,
    ring: Loop,
    back: usize,
    amounts: &mut [u128],
    counts: &mut [u128],
) -> Result<Option<Back>, AllocError>
    requires some { 0 < length weighed.weights.now }
    requires steps { AreSteps (length weighed.weights.now - 1) weighed.steps.now }
    requires ring { IsLoopOf (length weighed.weights.now - 1) weighed.steps.now ring }
    requires amounts { length amounts.now ≡ length weighed.weights.now }
    requires counts { length counts.now ≡ length weighed.steps.now }
    requires prices { HaveSmallPrices weighed.steps.now }
    requires small { IsSmallTurn weighed.low weighed.weights.now weighed.steps.now ring }
    ensures { IfOk result (λ o. HasTurned (length weighed.entry.weights.now - 1) weighed.entry.steps.now counts.old (with_way (way_at (turn_ways weighed.entry.low weighed.entry.weights.now ring weighed.entry.steps.now) 0) (turning_of weighed.entry.low weighed.entry.weights.now ring weighed.entry.steps.now (turn_ways weighed.entry.low weighed.entry.weights.now ring weighed.entry.steps.now) back) []) counts.new (option_to_list o)) }
{
    let ways = turn_ways(alloc, weighed.low, weighed.weights, ring, weighed.steps)?;
    match way_at(&ways, 0) {
        None => Ok(None),
        Some(_) => Ok(Some(turn_along(weighed, ring, back, &ways, amounts, counts))),
    }
}

/// Makes the further turns of a loop, if it has a jump back that isn't its header.
fn turn_ring(
    alloc: Global,
    weighed: Weighed,
    ring: Loop,
    amounts: &mut [u128],
    counts: &mut [u128],
) -> Result<Option<Back>, AllocError>
    requires some { 0 < length weighed.weights.now }
    requires steps { AreSteps (length weighed.weights.now - 1) weighed.steps.now }
    requires ring { IsLoopOf (length weighed.weights.now - 1) weighed.steps.now ring }
    requires amounts { length amounts.now ≡ length weighed.weights.now }
    requires counts { length counts.now ≡ length weighed.steps.now }
    requires prices { HaveSmallPrices weighed.steps.now }
    requires small { IsSmallTurn weighed.low weighed.weights.now weighed.steps.now ring }
    ensures { IfOk result (λ o. HasTurned (length weighed.entry.weights.now - 1) weighed.entry.steps.now counts.old (with_back weighed.entry.low weighed.entry.weights.now ring weighed.entry.steps.now ring.back []) counts.new (option_to_list o)) }
{
    match ring.back {
        None => Ok(None),
        Some(back) => {
            if back == ring.header {
                return Ok(None);
            }
            turn_loop(alloc, weighed, ring, back, amounts, counts)
        }
    }
}

/// Adds a jump back, if there is one.
fn push(backs: &mut Vec<Back>, back: Option<Back>) -> Result<(), AllocError>
    ensures { OnOk result (backs.new.items ≡ backs.old.items ++ option_to_list back) }
{
    if let Some(back) = back {
        backs.push(back)?;
    }
    Ok(())
}

/// Makes the further turns of all loops, the outermost first, and takes the weights of their headers away.
pub(crate) fn turn_all(
    alloc: Global,
    low: i128,
    weights: &mut [i128],
    code: Code,
    amounts: &mut [u128],
    counts: &mut [u128],
) -> Result<Vec<Back>, AllocError>
    requires some { 0 < length weights.now }
    requires weights { weights.now ≡ weighed low code.steps.now (bared weights.now code.loops.now) code.loops.now }
    requires none { HaveNone (bared weights.now code.loops.now) code.loops.now }
    requires steps { AreSteps (length weights.now - 1) code.steps.now }
    requires loops { AreLoops (length weights.now - 1) code.steps.now code.loops.now }
    requires amounts { length amounts.now ≡ length weights.now }
    requires counts { length counts.now ≡ length code.steps.now }
    requires prices { HaveSmallPrices code.steps.now }
    requires small { AreSmallTurns low code.steps.now (bared weights.now code.loops.now) code.loops.now }
    ensures weights { OnOk result (weights.new ≡ bared weights.old code.entry.loops.now) }
    ensures turned { IfOk result (λ v. HasTurned (length weights.old - 1) code.entry.steps.now counts.old (turnings low code.entry.steps.now (bared weights.old code.entry.loops.now) code.entry.loops.now) counts.new v.items) }
{
    let mut backs = Vec::new(alloc);
    for i in 0..code.loops.len() {
        let ring = code.loops[i];
        weights[ring.header] = 0;
        let weighed = Weighed {
            low,
            weights,
            steps: code.steps,
        };
        let back = turn_ring(alloc, weighed, ring, amounts, counts)?;
        push(&mut backs, back)?;
    }
    Ok(backs)
}
