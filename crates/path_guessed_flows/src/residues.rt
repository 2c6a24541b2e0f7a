// Whole numbers modulo a prime of 127 bits (Mersenne's).
ghost use Rattle.std.specs.Prelude.{◌<◌, ◌^◌};

/// Modulo the prime it is 1.
const TOP: u128 = 1 << 127;

/// The prime.
pub(crate) const PRIME: u128 = TOP - 1;

/// One more than the greatest number of half the bits.
const HALF: u128 = 1 << 64;

/// The exponents of the power that is an inverse are all those of 127 bits but this.
const LEFT_OUT: usize = 1;

/// The residue of a number.
fn folded(number: u128) -> u128
    ensures { result < 2 ^ 127 }
{
    let sum = number / TOP + number % TOP;
    if sum >= PRIME { sum - PRIME } else { sum }
}

/// The residue of a number with a sign.
pub(crate) fn residue(number: i128) -> u128 {
    let size = folded(number.unsigned_abs());
    if number < 0 {
        return PRIME.wrapping_sub(size);
    }
    size
}

/// The sum of residues.
pub(crate) fn sum(a: u128, b: u128) -> u128
    ensures { result < 2 ^ 127 }
{
    folded(a.wrapping_add(b))
}

/// The difference of residues.
pub(crate) fn difference(a: u128, b: u128) -> u128
    ensures { result < 2 ^ 127 }
{
    sum(a, PRIME.wrapping_sub(b))
}

/// A number of halves: 2^128 is 2.
fn doubled(number: u128) -> u128 {
    folded(number.wrapping_mul(2))
}

/// A number 2^64 times: what is above its lower 63 bits comes to the bottom.
fn raised(number: u128) -> u128 {
    let lower = number % (HALF / 2);
    folded(lower.wrapping_mul(HALF).wrapping_add(number / (HALF / 2)))
}

/// The product of residues.
pub(crate) fn product(a: u128, b: u128) -> u128
    ensures { result < 2 ^ 127 }
{
    let high = (a / HALF).wrapping_mul(b / HALF);
    let one = (a / HALF).wrapping_mul(b % HALF);
    let other = (a % HALF).wrapping_mul(b / HALF);
    let low = (a % HALF).wrapping_mul(b % HALF);
    let middle = raised(one.wrapping_add(other));
    sum(sum(doubled(high), middle), folded(low))
}

/// What a residue is to be multiplied by for 1: its power to the prime less 2 (Fermat).
pub(crate) fn inverse(number: u128) -> u128 {
    let mut power = number;
    let mut all = 1;
    for bit in 0..127 {
        if bit != LEFT_OUT {
            all = product(all, power);
        }
        power = product(power, power);
    }
    all
}
