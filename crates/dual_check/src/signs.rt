// The signs of the multipliers.
ghost use Rattle.std.specs.Prelude.{◌≡◌, ◌+◌, ◌<◌, ◌^◌, length};
ghost use Rattle.code_flow_system.specs.Certificates.{IsInForm};
ghost use Rattle.dual_check.specs.Rows.{first_failing, is_negative, is_negative_pair, is_wrong_for, first_wrong_fact, first_wrong_sign, nevers_from, loops_from, facts_from};

use crate::numbers::{facts_from, loops_from, nevers_from};
use code_flow_system::{Cert, FactClaim, System};
use wcc_base::Compare;

/// The first never claim with a negative multiplier.
fn first_never(multipliers: &[i128], from: u32) -> Option<u32>
    requires { from + length multipliers.now < 2 ^ 32 }
    ensures { result ≡ first_failing is_negative from multipliers.now }
{
    for i in 0..multipliers.len() {
        if multipliers[i] < 0 {
            return Some(from + i as u32);
        }
    }
    None
}

/// The first loop claim with a negative multiplier.
fn first_loop(multipliers: &[(i128, i128)], from: u32) -> Option<u32>
    requires { from + length multipliers.now < 2 ^ 32 }
    ensures { result ≡ first_failing is_negative_pair from multipliers.now }
{
    for i in 0..multipliers.len() {
        if multipliers[i].0 < 0 || multipliers[i].1 < 0 {
            return Some(from + i as u32);
        }
    }
    None
}

/// Whether a multiplier has the wrong sign for a fact's operator.
fn is_wrong_for(op: Compare, by: i128) -> bool
    ensures { result ≡ is_wrong_for op by }
{
    match op {
        Compare::AtMost => by < 0,
        Compare::AtLeast => by > 0,
        Compare::Equal => false,
    }
}

/// The first fact with a multiplier of the wrong sign.
fn first_fact(facts: &[FactClaim], multipliers: &[i128], from: u32) -> Option<u32>
    requires long { length multipliers.now ≡ length facts.now }
    requires few { from + length facts.now < 2 ^ 32 }
    ensures { result ≡ first_wrong_fact from facts.now multipliers.now }
{
    for i in 0..facts.len() {
        if is_wrong_for(facts[i].op, multipliers[i]) {
            return Some(from + i as u32);
        }
    }
    None
}

/// The first claim with a multiplier of the wrong sign.
pub fn first_wrong_sign(system: &System, cert: &Cert) -> Option<u32>
    requires { IsInForm system.now.claims cert.now }
    ensures { result ≡ first_wrong_sign system.now.claims cert.now }
{
    let claims = system.claims();
    if let Some(claim) = first_never(cert.nevers.as_slice(), nevers_from(claims)) {
        return Some(claim);
    }
    if let Some(claim) = first_loop(cert.loops.as_slice(), loops_from(claims)) {
        return Some(claim);
    }
    first_fact(claims.facts(), cert.facts.as_slice(), facts_from(claims))
}
