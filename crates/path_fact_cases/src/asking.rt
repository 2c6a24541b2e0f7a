// Multipliers that walks can be asked for.
ghost use Rattle.std.specs.Prelude.{◌≡◌, ◌↔◌, ◌+◌, ◌*◌, ◌<◌, ◌≤◌, ◌^◌, true, unsigned_abs, length, All};
ghost use Rattle.code_flow_system.specs.Certificates.{fact_limits, FitsSign, IsSigned};
ghost use Rattle.path_fact_cases.specs.Asked.{AreAsked};

use code_flow_system::{FactClaim, System};
use wcc_base::Compare;

/// What a number times one more than the loops may come to.
const LIMIT: u128 = 1 << 44;

fn is_narrow(number: i128, loops: usize) -> bool
    requires { loops < 2 ^ 32 }
    ensures { result ≡ true → unsigned_abs number * (loops + 1) ≤ 2 ^ 44 }
{
    let size = number.unsigned_abs();
    size <= LIMIT && size * (loops as u128 + 1) <= LIMIT
}

/// Whether each number, times one more than the loops, is at most 2^44.
fn are_narrow(numbers: &[i128], loops: usize) -> bool
    requires { loops < 2 ^ 32 }
    ensures { result ≡ true → All (λ z. unsigned_abs z * (loops + 1) ≤ 2 ^ 44) numbers.now }
{
    for i in 0..numbers.len() {
        if !is_narrow(numbers[i], loops) {
            return false;
        }
    }
    true
}

/// Whether a multiplier has the sign of its fact.
fn has_sign(op: Compare, multiplier: i128) -> bool
    ensures { (result ≡ true) ↔ FitsSign op multiplier }
{
    match op {
        Compare::AtMost => multiplier >= 0,
        Compare::AtLeast => multiplier <= 0,
        Compare::Equal => true,
    }
}

/// Whether each multiplier has the sign of its fact.
fn have_signs(facts: &[FactClaim], multipliers: &[i128]) -> bool
    requires { length multipliers.now ≡ length facts.now }
    ensures { result ≡ true → All IsSigned (fact_limits facts.now multipliers.now) }
{
    for i in 0..facts.len() {
        if !has_sign(facts[i].op, multipliers[i]) {
            return false;
        }
    }
    true
}

/// Whether walks can be asked for this scale and these multipliers: there is one for each fact, with its sign, and none is too
/// large.
pub fn are_asked(system: &System, scale: u64, multipliers: &[i128]) -> bool
    ensures { result ≡ true → AreAsked system.now scale multipliers.now }
{
    let loops = system.claims().loops().len();
    let facts = system.claims().facts();
    if scale == 0 || multipliers.len() != facts.len() {
        return false;
    }
    is_narrow(i128::from(scale), loops)
        && are_narrow(multipliers, loops)
        && have_signs(facts, multipliers)
}
