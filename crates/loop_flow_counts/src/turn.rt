// The pass of a loop's further turns.
ghost use Rattle.std.specs.Prelude.{◌≡◌, ◌-◌, ◌≤◌, ◌<◌, take, drop, length, All};
ghost use Rattle.loop_flows.specs.Passes.{spread};
ghost use Rattle.loop_flows.specs.Flows.{only_at, together};
ghost use Rattle.loop_flows.specs.Turns.{is_way, is_turn, further_turns};
ghost use Rattle.loop_walks.specs.Rows.{AreSteps, Each, IsLoopOf};
ghost use Rattle.loop_walks.specs.Turns.{turn_ways};
ghost use Rattle.loop_worths.specs.Rings.{IsWalkStep};
ghost use Rattle.loop_worths.specs.Sizes.{IsSmall, AreSmall, AreSmallWays, HaveSmallPrices};
ghost use Rattle.loop_flow_counts.specs.Wraps.{SameCounts, AgreeIn};
ghost use Rattle.loop_flow_counts.specs.Made.{NotChosen};

use crate::count::{add, clear};
use crate::pass::make_if;
use loop_walks::{Loop, Step};
use loop_worths::{further, way_at};

/// The steps of a function, where a block is worth `low` and these weights are those of the places.
#[derive(Clone, Copy)]
pub(crate) struct Weighed<'a> {
    pub(crate) low: i128,
    pub(crate) weights: &'a [i128],
    pub(crate) steps: &'a [Step],
}

/// How often a loop turns again for each start: as often as it may where a turn gains, and else as often as it has to.
pub(crate) fn further_turns(ring: Loop, gain: i128) -> u32
    ensures { result ≡ further_turns ring gain }
{
    if gain < 0 {
        if ring.min <= 1 {
            return 0;
        }
        return ring.min - 1;
    }
    if ring.max == 0 {
        return 0;
    }
    ring.max - 1
}

/// Whether a way is no longer than another one.
fn is_way(a: Option<i128>, b: Option<i128>) -> bool
    ensures { result ≡ is_way a b }
{
    match a {
        None => false,
        Some(x) => match b {
            None => false,
            Some(y) => x <= y,
        },
    }
}

/// Whether the way to the jump back goes along a step.
fn is_turn(low: i128, weights: &[i128], ring: Loop, ways: &[Option<i128>], step: Step) -> bool
    requires step { IsWalkStep (length weights.now) step }
    requires price { IsSmall step.price }
    requires weights { AreSmall weights.now }
    requires ways { AreSmallWays ways.now }
    ensures { result ≡ is_turn low weights.now ring ways.now step }
{
    if step.at < ring.header {
        return false;
    }
    if ring.end <= step.at {
        return false;
    }
    let here = way_at(ways, step.at - ring.header);
    let on = way_at(ways, step.on - ring.header);
    is_way(here, further(low, step.price, weights[step.at], on))
}

/// So much is at the header, and nothing at the other places of a loop.
fn begin(amounts: &mut [u128], ring: Loop, turns: u128)
    requires { (ring.header < ring.end) × (ring.end < length amounts.now) }
    ensures { AgreeIn ring.header ring.end amounts.new (only_at (length amounts.old - 1) ring.header turns) }
{
    clear(amounts, ring.header, ring.end);
    amounts[ring.header] = turns;
}

/// Adds how often each step of a loop's range is made, of what is at the places.
fn pass(
    weighed: Weighed,
    ring: Loop,
    ways: &[Option<i128>],
    amounts: &mut [u128],
    counts: &mut [u128],
)
    requires order { (ring.head ≤ ring.rest) × (ring.rest ≤ length weighed.steps.now) }
    requires steps { All (IsWalkStep (length weighed.weights.now)) weighed.steps.now }
    requires amounts { length amounts.now ≡ length weighed.weights.now }
    requires counts { length counts.now ≡ length weighed.steps.now }
    requires prices { HaveSmallPrices weighed.steps.now }
    requires weights { AreSmall weighed.weights.now }
    requires ways { AreSmallWays ways.now }
    requires before { Each (NotChosen (is_turn weighed.low weighed.weights.now ring ways.now)) (take ring.head weighed.steps.now) }
    requires behind { Each (NotChosen (is_turn weighed.low weighed.weights.now ring ways.now)) (drop ring.rest weighed.steps.now) }
    ensures { SameCounts counts.new (together counts.old (spread (is_turn weighed.entry.low weighed.entry.weights.now ring ways.now) amounts.old weighed.entry.steps.now)) }
{
    for k in ring.head..ring.rest {
        let step = weighed.steps[k];
        let chosen = is_turn(weighed.low, weighed.weights, ring, ways, step);
        add(counts, k, make_if(chosen, amounts, step));
    }
}

/// Adds how often the further turns of a loop make each step, where so many of them start at the header.
pub(crate) fn turn_pass(
    weighed: Weighed,
    ring: Loop,
    ways: &[Option<i128>],
    turns: u128,
    amounts: &mut [u128],
    counts: &mut [u128],
)
    requires some { 0 < length weighed.weights.now }
    requires steps { AreSteps (length weighed.weights.now - 1) weighed.steps.now }
    requires ring { IsLoopOf (length weighed.weights.now - 1) weighed.steps.now ring }
    requires amounts { length amounts.now ≡ length weighed.weights.now }
    requires counts { length counts.now ≡ length weighed.steps.now }
    requires prices { HaveSmallPrices weighed.steps.now }
    requires weights { AreSmall weighed.weights.now }
    requires ways { AreSmallWays ways.now }
    requires all { ways.now ≡ turn_ways weighed.low weighed.weights.now ring weighed.steps.now }
    ensures { SameCounts counts.new (together counts.old (spread (is_turn weighed.entry.low weighed.entry.weights.now ring ways.now) (only_at (length weighed.entry.weights.now - 1) ring.header turns) weighed.entry.steps.now)) }
{
    begin(amounts, ring, turns);
    pass(weighed, ring, ways, amounts, counts);
}
