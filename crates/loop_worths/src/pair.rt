// The multipliers of a loop's bounds, by what a turn gains.
ghost use Rattle.std.specs.Prelude.{◌≡◌, ◌<◌, ◌≤◌, ◌+◌, ◌-◌, ◌/◌, ◌^◌, pos, ◌+ℤ◌, ◌-ℤ◌, ◌*ℤ◌, ◌<ℤ◌, unsigned_abs};
ghost use Rattle.loop_walks.specs.Walks.{larger};
ghost use Rattle.loop_walks.specs.Multipliers.{first_weight, whole, over, least_of, pair_of, weight_of, back_worth};
ghost use Rattle.loop_worths.specs.Sizes.{IsSmall, IsSmallPair};

use crate::walk::{larger, sum};
use loop_walks::{Loop, Pair};

/// A product that fits.
fn times(a: i128, b: i128) -> i128
    requires { IsSmall (a *ℤ b) }
    ensures value { result ≡ a *ℤ b }
    ensures small { IsSmall result }
{
    a * b
}

/// A difference that fits.
fn minus(a: i128, b: i128) -> i128
    requires a { unsigned_abs a < 2 ^ 126 }
    requires b { unsigned_abs b < 2 ^ 126 }
    ensures { result ≡ a -ℤ b }
{
    a - b
}

/// Two numbers and a gain, less a loss.
fn balance(a: i128, b: i128, gain: i128, loss: i128) -> i128
    requires a { IsSmall a }
    requires b { IsSmall b }
    requires gain { IsSmall gain }
    requires loss { IsSmall loss }
    ensures { result ≡ ((a +ℤ b) +ℤ gain) -ℤ loss }
{
    minus(sum(a, b, gain), loss)
}

/// The starts of a loop but one.
fn further(starts: u32) -> i128
    ensures { result ≡ pos starts -ℤ pos 1 }
{
    i128::from(starts) - 1
}

/// A loss for each of some turns, but no more than a block.
fn limited(low: i128, loss: i128, turns: i128) -> i128
    requires low { IsSmall low }
    requires loss { (loss *ℤ turns) <ℤ pos 0 }
    ensures { result ≡ larger low (loss *ℤ turns) }
{
    match loss.checked_mul(turns) {
        None => low,
        Some(all) => larger(low, all),
    }
}

/// What further turns add to a header at first, where a turn gains so much.
pub(crate) fn first_weight(low: i128, ring: Loop, gain: i128) -> i128
    requires low { IsSmall low }
    requires weight { IsSmall (first_weight low ring gain) }
    ensures { result ≡ first_weight low ring gain }
{
    if gain < 0 {
        if ring.min <= 1 {
            return 0;
        }
        return limited(low, gain, further(ring.min));
    }
    times(gain, further(ring.max))
}

fn whole(number: i128) -> u128
    ensures { result ≡ whole number }
{
    if number < 0 {
        return 0;
    }
    number as u128
}

/// A number over another one, which is one more than `less`, rounded up.
fn over(number: u128, less: u32) -> u128
    requires { number < 2 ^ 127 }
    ensures { result ≡ over number less }
{
    let less = u128::from(less);
    (number + less) / (less + 1)
}

/// By how much each turn but the first has to lose less, to make up for how far the header's worth is below that of its
/// ways on.
fn room(min: u32, onward: i128, header: i128) -> u128
    requires min { 2 ≤ min }
    requires onward { unsigned_abs onward < 2 ^ 125 }
    requires header { IsSmall header }
    ensures { result ≡ over (whole (onward -ℤ header)) (min - 2) }
{
    over(whole(minus(onward, header)), min - 2)
}

/// The multiplier of the least, where a turn loses: what it loses, or as much as makes up for how far the header's
/// worth is below that of its ways on.
fn least_of(ring: Loop, gain: i128, onward: i128, header: i128) -> u128
    requires gain { IsSmall gain }
    requires onward { unsigned_abs onward < 2 ^ 125 }
    requires header { IsSmall header }
    ensures value { result ≡ least_of ring gain onward header }
    ensures small { result < 2 ^ 124 }
{
    if ring.min <= 1 {
        return 0;
    }
    gain.unsigned_abs().min(room(ring.min, onward, header))
}

/// A loop's multipliers.
pub(crate) fn pair_of(ring: Loop, gain: i128, onward: i128, header: i128) -> Pair
    requires gain { IsSmall gain }
    requires onward { unsigned_abs onward < 2 ^ 125 }
    requires header { IsSmall header }
    ensures { result ≡ pair_of ring gain onward header }
{
    if gain < 0 {
        let least = least_of(ring, gain, onward, header) as i128;
        return Pair { least, most: 0 };
    }
    Pair {
        least: 0,
        most: gain,
    }
}

/// What the multipliers add at the header.
pub(crate) fn weight_of(ring: Loop, pair: Pair) -> i128
    requires { IsSmallPair ring pair }
    ensures { result ≡ weight_of ring pair }
{
    let most = times(pair.most, further(ring.max));
    let least = times(pair.least, further(ring.min));
    minus(most, least)
}

/// What the jump back is worth.
pub(crate) fn back_worth(ring: Loop, header: i128, pair: Pair) -> i128
    requires price { IsSmall ring.price }
    requires header { IsSmall header }
    requires pair { IsSmallPair ring pair }
    ensures { result ≡ back_worth ring header pair }
{
    let least = times(pair.least, i128::from(ring.min));
    let most = times(pair.most, i128::from(ring.max));
    balance(ring.price, header, least, most)
}
