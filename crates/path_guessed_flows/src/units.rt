// A unit over which fractions, given modulo the prime, are whole numbers (Wang 1981, rational reconstruction).
ghost use Rattle.std.specs.Prelude.{◌<◌, ◌≤◌, ◌^◌, IfSome};

use crate::residues::{PRIME, product};

/// Amounts over a unit are less.
pub(crate) const MOST: u128 = 1 << 78;

/// No unit is greater.
const GREATEST: u128 = 1 << 48;

/// Euclid's algorithm takes fewer steps.
const STEPS: usize = 200;

/// The denominator of the fraction of a numerator below the limit that a residue is: Euclid's algorithm, up to the first remainder
/// below it.
fn denominator(residue: u128) -> u128 {
    let mut before = PRIME;
    let mut left = residue;
    let mut less: u128 = 0;
    let mut often: u128 = 1;
    for _ in 0..STEPS {
        if left < MOST {
            return often;
        }
        let more = (before / left).wrapping_mul(often).wrapping_add(less);
        let next = before % left;
        before = left;
        left = next;
        less = often;
        often = more;
    }
    often
}

/// The least unit over which all amounts are whole numbers; none where it is too great.
pub(crate) fn unit_of(amounts: &[u128]) -> Option<u64>
    ensures { IfSome result (λ u. (0 < u) × (u ≤ 2 ^ 48)) }
{
    let mut unit: u128 = 1;
    for i in 0..amounts.len() {
        let part = product(amounts[i], unit);
        if part >= MOST {
            let next = unit.wrapping_mul(denominator(part));
            if next == 0 || next > GREATEST {
                return None;
            }
            unit = next;
        }
    }
    Some(unit as u64)
}
