//! How fractions compare, exactly and whatever their parts.

ghost use Rattle.std.specs.Prelude.{◌≡◌, pos, ◌*◌, ◌<◌, ◌*ℤ◌, ◌<ℤ◌};
ghost use Rattle.std.specs.Int.{int_rem_euclid};
ghost use Rattle.std.specs.Ordering.{nat_cmp, int_cmp};

use std::cmp::Ordering;

/// How a/b compares with c/d.
///
/// Nothing is multiplied out: whole parts are compared, and where they are equal, what is left of
/// both. So each part may be any `i128`.
pub fn compare_ratios(a: i128, b: i128, c: i128, d: i128) -> Ordering
    requires left { pos 0 <ℤ b }
    requires right { pos 0 <ℤ d }
    ensures { result ≡ int_cmp (a *ℤ d) (c *ℤ b) }
{
    match a.div_euclid(b).cmp(&c.div_euclid(d)) {
        Ordering::Equal => compare_proper(proper(a, b), proper(c, d)),
        wholes => wholes,
    }
}

// What a/b is above a whole number: the remainder, and the denominator.
fn proper(a: i128, b: i128) -> (u128, u128)
    requires { pos 0 <ℤ b }
    ensures num { pos result.0 ≡ int_rem_euclid a b }
    ensures den { pos result.1 ≡ b }
    ensures below { result.0 < result.1 }
{
    (a.rem_euclid(b) as u128, b as u128)
}

// How two fractions below 1 compare: as what they are turned over does, in reverse. There whole parts
// decide, or else what is left of both, and so on, as in Euclid's algorithm.
fn compare_proper(left: (u128, u128), right: (u128, u128)) -> Ordering
    requires left { left.0 < left.1 }
    requires right { right.0 < right.1 }
    ensures { result ≡ nat_cmp (left.0 * right.1) (right.0 * left.1) }
{
    let (mut a, mut b) = left;
    let (mut c, mut d) = right;
    while a != 0 && c != 0 {
        match (d / c).cmp(&(b / a)) {
            Ordering::Equal => {}
            wholes => return wholes,
        }
        (a, b, c, d) = (d % c, c, b % a, a);
    }
    a.cmp(&c)
}
