// Walks to the ends.
ghost use Rattle.std.specs.Prelude.{◌≡◌, ◌<◌, ◌^◌, ◌+ℤ◌, length, unsigned_abs, All};
ghost use Rattle.loop_walks.specs.Walks.{larger, taken, relaxed};
ghost use Rattle.loop_walks.specs.Levels.{onward_by, onward};
ghost use Rattle.loop_worths.specs.Rings.{IsWalkStep};
ghost use Rattle.loop_worths.specs.Sizes.{IsSmall, AreSmall, HaveSmallPrices, StaySmall};

use loop_walks::Step;

pub(crate) fn larger(a: i128, b: i128) -> i128
    ensures { result ≡ larger a b }
{
    if a <= b { b } else { a }
}

/// Three numbers added.
pub fn sum(a: i128, b: i128, c: i128) -> i128
    requires a { IsSmall a }
    requires b { IsSmall b }
    requires c { IsSmall c }
    ensures value { result ≡ (a +ℤ b) +ℤ c }
    ensures small { unsigned_abs result < 2 ^ 126 }
{
    a + b + c
}

/// Lets a place take one of its steps.
fn take(weights: &[i128], worths: &mut [i128], step: Step)
    requires long { length weights.now ≡ length worths.now }
    requires step { IsWalkStep (length worths.now) step }
    requires price { IsSmall step.price }
    requires weights { AreSmall weights.now }
    requires worths { AreSmall worths.now }
    ensures { worths.new ≡ taken weights.now worths.old step }
{
    let way = sum(step.price, weights[step.at], worths[step.on]);
    worths[step.at] = larger(worths[step.at], way);
}

/// A walk over steps, the last one first, after which none costs more than the worth falls along it.
pub(crate) fn walk(weights: &[i128], worths: &mut [i128], steps: &[Step])
    requires long { length weights.now ≡ length worths.now }
    requires steps { All (IsWalkStep (length worths.now)) steps.now }
    requires small { StaySmall weights.now worths.now steps.now }
    ensures { worths.new ≡ relaxed weights.now worths.old steps.now }
{
    for k in 0..steps.len() {
        take(weights, worths, steps[steps.len() - 1 - k]);
    }
}

/// What a step is worth without a weight.
fn onward_by(worths: &[i128], step: Step) -> i128
    requires on { step.on < length worths.now }
    requires price { IsSmall step.price }
    requires worths { AreSmall worths.now }
    ensures value { result ≡ onward_by worths.now step }
    ensures small { unsigned_abs result < 2 ^ 125 }
{
    step.price + worths[step.on]
}

/// The greater of a worth and that of a step without a weight.
fn onward_or(best: i128, worths: &[i128], step: Step) -> i128
    requires best { unsigned_abs best < 2 ^ 125 }
    requires on { step.on < length worths.now }
    requires price { IsSmall step.price }
    requires worths { AreSmall worths.now }
    ensures value { result ≡ larger (onward_by worths.now step) best }
    ensures small { unsigned_abs result < 2 ^ 125 }
{
    larger(onward_by(worths, step), best)
}

/// The greatest worth of steps without any weight, and no less than a block.
pub(crate) fn onward(low: i128, worths: &[i128], steps: &[Step]) -> i128
    requires low { IsSmall low }
    requires steps { All (IsWalkStep (length worths.now)) steps.now }
    requires prices { HaveSmallPrices steps.now }
    requires worths { AreSmall worths.now }
    ensures value { result ≡ onward low worths.now steps.now }
    ensures small { unsigned_abs result < 2 ^ 125 }
{
    let mut best = low;
    for k in 0..steps.len() {
        best = onward_or(best, worths, steps[steps.len() - 1 - k]);
    }
    best
}
