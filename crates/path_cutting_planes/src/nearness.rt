// Floats near to whole numbers, and to fractions of small denominators.
ghost use Rattle.std.specs.Prelude.{◌<◌, IfSome};

use simplex_tables::gcd;
use std::num::{nearest_u64_to_f64, saturating_f64_to_i64};

/// No fraction has a greater denominator.
const MOST: u64 = 4_096;

/// The nearest whole number.
pub(crate) fn rounded(number: f64) -> i64 {
    saturating_f64_to_i64((number + 0.5).floor())
}

/// Whether a number is near to a fraction with a denominator.
fn is_near(number: f64, denominator: u64, off: f64) -> bool {
    let by = nearest_u64_to_f64(denominator);
    let product = number * by;
    (product - (product + 0.5).floor()).abs() < by * off
}

/// The least denominator of a fraction near to a number.
fn denominator(number: f64, off: f64) -> Option<u64>
    ensures { IfSome result (λ d. 0 < d) }
{
    for denominator in 1..MOST {
        if is_near(number, denominator, off) {
            return Some(denominator);
        }
    }
    None
}

/// A number as the fraction of the least denominator that is near to it.
pub(crate) fn fraction(number: f64, off: f64) -> f64 {
    match denominator(number, off) {
        Some(denominator) => {
            let by = nearest_u64_to_f64(denominator);
            (number * by + 0.5).floor() / by
        }
        None => number,
    }
}

/// The least common multiple; none where it passes a limit.
fn multiple(a: u64, b: u64, limit: u64) -> Option<u64>
    requires a { 0 < a }
    requires b { 0 < b }
    ensures { IfSome result (λ d. 0 < d) }
{
    let common = gcd(u128::from(a), u128::from(b));
    if common == 0 {
        return None;
    }
    let all = u128::from(a) / common * u128::from(b);
    if all == 0 || all > u128::from(limit) {
        return None;
    }
    Some(all as u64)
}

/// A common denominator of fractions near to numbers; none where it passes a limit.
pub(crate) fn common(numbers: &[f64], off: f64, limit: u64) -> Option<u64>
    ensures { IfSome result (λ d. 0 < d) }
{
    let mut all = 1;
    for i in 0..numbers.len() {
        let next = denominator(numbers[i], off)?;
        all = multiple(all, next, limit)?;
    }
    Some(all)
}
