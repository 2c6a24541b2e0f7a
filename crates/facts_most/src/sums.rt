// Sums and products that are cut at 2^64 - 1, and the numbers of loops and calls.
ghost use Rattle.std.specs.Prelude.{◌≡◌, ◌+◌, ◌*◌};
ghost use Rattle.facts_definitions.specs.Most.{bounds_at, call_most, cut, times};
ghost use Rattle.facts_most.specs.Items.{calls_by};

use facts_definitions::Bounds;
use types_tree::expression::Callee;

/// A sum, cut at 2^64 - 1.
pub fn add(a: u64, b: u64) -> u64
    ensures { result ≡ cut (a + b) }
{
    a.saturating_add(b)
}

/// A product, cut at 2^64 - 1.
pub fn multiply(a: u64, b: u64) -> u64
    ensures { result ≡ cut (a * b) }
{
    a.saturating_mul(b)
}

/// The bounds of the loop of this number.
pub fn bounds_at(bounds: &[Bounds], number: u32) -> Bounds
    ensures { result ≡ bounds_at bounds.now number }
{
    let index = number.saturating_sub(1) as usize;
    if index < bounds.len() {
        return bounds[index];
    }
    Bounds { min: 0, max: 0 }
}

/// How often a loop starts at most, and once at least.
pub fn times(always: bool, bounds: Bounds) -> u64
    ensures same { result ≡ times always bounds }
    ensures small { cut result ≡ result }
{
    if always {
        return u64::from(bounds.max).max(1);
    }
    u64::from(bounds.max) + 1
}

/// What a call of a function comes to, by the numbers of the functions.
pub fn call_most(callee: Callee, calls: &[u64]) -> u64
    ensures { result ≡ call_most (calls_by calls.now) callee }
{
    match callee {
        Callee::Getchar => 0,
        Callee::Putchar => 0,
        Callee::Function(function) => {
            let index = function.0 as usize;
            if index < calls.len() {
                return calls[index];
            }
            0
        }
    }
}
