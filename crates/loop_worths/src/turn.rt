// Walks to a loop's jump back.
ghost use Rattle.std.specs.Prelude.{◌≡◌, ◌<◌, ◌≤◌, ◌-◌, ◌+ℤ◌, length, All, IfSome, IfOk, None, Some};
ghost use Rattle.std.proofs.Math.ListN.{replicate};
ghost use Rattle.loop_walks.specs.Turns.{greater, further, way_at, turn_taken, turned, with_back, turn_ways, gain_by, gain};
ghost use Rattle.loop_worths.specs.Rings.{IsTurnStep, IsRing};
ghost use Rattle.loop_worths.specs.Sizes.{IsSmall, AreSmall, AreSmallWays, TurnsStaySmall, IsSmallTurn};

use crate::walk::{larger, sum};
use loop_walks::{Loop, Step};
use std::alloc::{AllocError, Global};

/// The greater of two ways.
fn greater(a: Option<i128>, b: Option<i128>) -> Option<i128>
    ensures { result ≡ greater a b }
{
    match a {
        None => b,
        Some(x) => match b {
            None => Some(x),
            Some(y) => Some(larger(x, y)),
        },
    }
}

/// A way at a further price and weight, but worth no less than a block.
pub fn further(low: i128, price: i128, weight: i128, way: Option<i128>) -> Option<i128>
    requires price { IsSmall price }
    requires weight { IsSmall weight }
    requires way { IfSome way IsSmall }
    ensures { result ≡ further low (price +ℤ weight) way }
{
    match way {
        None => None,
        Some(way) => Some(larger(low, sum(price, weight, way))),
    }
}

/// The way from a place of the range, by its number there.
pub fn way_at(ways: &[Option<i128>], place: usize) -> Option<i128>
    ensures { result ≡ way_at ways.now place }
{
    if place < ways.len() {
        ways[place]
    } else {
        None
    }
}

/// Lets a place of the range take one of its steps.
fn take(low: i128, weights: &[i128], first: usize, ways: &mut [Option<i128>], step: Step)
    requires weight { step.at < length weights.now }
    requires from { first ≤ step.at }
    requires at { (step.at - first) < length ways.now }
    requires on { step.at < step.on }
    requires price { IsSmall step.price }
    requires small_weights { AreSmall weights.now }
    requires small_ways { AreSmallWays ways.now }
    ensures { ways.new ≡ turn_taken low weights.now first ways.old step }
{
    let far = way_at(ways, step.on - first);
    let way = further(low, step.price, weights[step.at], far);
    ways[step.at - first] = greater(ways[step.at - first], way);
}

/// A walk over the steps of a range, the last one first.
fn walk(low: i128, weights: &[i128], first: usize, ways: &mut [Option<i128>], steps: &[Step])
    requires steps { All (IsTurnStep first (length ways.now) (length weights.now)) steps.now }
    requires small { TurnsStaySmall low weights.now first ways.now steps.now }
    ensures { ways.new ≡ turned low weights.now first ways.old steps.now }
{
    for k in 0..steps.len() {
        take(low, weights, first, ways, steps[steps.len() - 1 - k]);
    }
}

/// As long as no step is taken, there is a way from the jump back alone.
fn begin(ways: &mut [Option<i128>], back: Option<usize>, first: usize)
    requires { IfSome back (λ b. (first ≤ b) × ((b - first) < length ways.now)) }
    ensures { ways.new ≡ with_back back first ways.old }
{
    if let Some(back) = back {
        ways[back - first] = Some(0);
    }
}

/// What a turn gains, by its way, if there is one, and the price of the jump back.
pub fn gain_by(low: i128, price: i128, way: Option<i128>) -> i128
    requires price { IsSmall price }
    requires way { IfSome way IsSmall }
    ensures { result ≡ gain_by low price way }
{
    match way {
        None => low,
        Some(way) => larger(low, way + price),
    }
}

/// The ways from the places of a loop to its jump back, in a list of as many places as the loop has.
fn turn(low: i128, weights: &[i128], ring: Loop, steps: &[Step], ways: &mut [Option<i128>])
    requires fits { IsRing (length weights.now) steps.now ring }
    requires small { IsSmallTurn low weights.now steps.now ring }
    requires none { ways.now ≡ replicate (ring.end - ring.header) None }
    ensures { ways.new ≡ turn_ways low weights.now ring steps.now }
{
    begin(ways, ring.back, ring.header);
    walk(
        low,
        weights,
        ring.header,
        ways,
        &steps[ring.head..ring.rest],
    );
}

/// The ways from the places of a loop to its jump back.
pub fn turn_ways(
    alloc: Global,
    low: i128,
    weights: &[i128],
    ring: Loop,
    steps: &[Step],
) -> Result<Vec<Option<i128>>, AllocError>
    requires fits { IsRing (length weights.now) steps.now ring }
    requires small { IsSmallTurn low weights.now steps.now ring }
    ensures { IfOk result (λ v. v.items ≡ turn_ways low weights.now ring steps.now) }
{
    let mut ways = vec![in alloc; None; ring.end - ring.header]?;
    turn(low, weights, ring, steps, &mut ways);
    Ok(ways)
}

/// What a turn of a loop gains.
pub(crate) fn gain(
    alloc: Global,
    low: i128,
    weights: &[i128],
    ring: Loop,
    steps: &[Step],
) -> Result<i128, AllocError>
    requires fits { IsRing (length weights.now) steps.now ring }
    requires small { IsSmallTurn low weights.now steps.now ring }
    ensures { IfOk result (λ g. g ≡ gain low weights.now ring steps.now) }
{
    let ways = turn_ways(alloc, low, weights, ring, steps)?;
    Ok(gain_by(low, ring.price, way_at(&ways, 0)))
}
