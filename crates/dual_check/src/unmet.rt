// Whether the counts of the listed flow keep the claims.
ghost use Rattle.std.specs.Prelude.{◌≡◌, ◌+◌, ◌<◌, ◌≤◌, ◌^◌, ◌+ℤ◌, ◌*ℤ◌, neg_ℤ, unsigned_abs, IfSome, IsNone, ◌↔◌, length, ◌++◌};
ghost use Rattle.frac128.specs.Terms.{applied, int_sum_by};
ghost use Rattle.code_flow_system.specs.Certificates.{size_by, least_terms, most_terms, negated, IsInForm};
ghost use Rattle.dual_check.specs.Rows.{counts, first_failing, fails_never, fails_loop, fails_fact, first_unmet};
ghost use Rattle.dual_check.specs.Tests.{breaks_sum};
ghost use Rattle.dual_check.specs.Verdicts.{IsFlowEverywhere};

use crate::flows::add_moves;
use crate::numbers::{facts_from, loops_from, nevers_from};
use crate::running::{Running, add_term, nothing};
use crate::wide::{difference, negated, opposite, whole};
use code_flow_lookup::moves_at;
use code_flow_system::{Cert, FactClaim, LoopClaim, Never, System};
use wcc_base::Compare;

/// The count of an address in the listed flow.
fn count(system: &System, cert: &Cert, at: u32) -> i128
    requires form { IsInForm system.now.claims cert.now }
    requires flow { IsFlowEverywhere system.now cert.now }
    ensures { result ≡ counts system.now cert.now at }
{
    match add_moves(nothing(), system, cert, moves_at(system.moves(), at)) {
        Some(sum) => sum.total,
        None => 0,
    }
}

/// A number times the count of an address.
fn add_count(sum: Running, system: &System, cert: &Cert, number: i128, at: u32) -> Option<Running>
    requires form { IsInForm system.now.claims cert.now }
    requires flow { IsFlowEverywhere system.now cert.now }
    ensures none { IsNone result ↔ (2 ^ 126 ≤ sum.size + unsigned_abs (number *ℤ counts system.now cert.now at)) }
    ensures total { IfSome result (λ r. r.total ≡ sum.total +ℤ (number *ℤ counts system.now cert.now at)) }
    ensures size { IfSome result (λ r. r.size ≡ sum.size + unsigned_abs (number *ℤ counts system.now cert.now at)) }
{
    add_term(sum, number, count(system, cert, at))
}

/// Whether a sum is wide, or isn't as it should be beside 0.
fn breaks(op: Compare, sum: Option<Running>) -> bool
    ensures { result ≡ breaks_sum op sum }
{
    let Some(sum) = sum else {
        return true;
    };
    match op {
        Compare::AtMost => sum.total > 0,
        Compare::AtLeast => sum.total < 0,
        Compare::Equal => sum.total != 0,
    }
}

fn fails_never(system: &System, cert: &Cert, claim: &Never) -> bool
    requires form { IsInForm system.now.claims cert.now }
    requires flow { IsFlowEverywhere system.now cert.now }
    ensures { result ≡ fails_never (counts system.now cert.now) claim.now }
{
    breaks(
        Compare::AtMost,
        add_count(nothing(), system, cert, 1, claim.at),
    )
}

/// A loop's least, as a sum that is at most 0.
fn least(system: &System, cert: &Cert, claim: &LoopClaim) -> Option<Running>
    requires form { IsInForm system.now.claims cert.now }
    requires flow { IsFlowEverywhere system.now cert.now }
    ensures none { IsNone result ↔ (2 ^ 126 ≤ size_by (λ t. t.1 *ℤ counts system.now cert.now t.0) (least_terms claim.now)) }
    ensures total { IfSome result (λ r. r.total ≡ applied (least_terms claim.now) (counts system.now cert.now)) }
{
    let back = negated(u64::from(claim.min));
    let header = difference(claim.min, 1);
    let sum = add_count(nothing(), system, cert, header, claim.header)?;
    add_count(sum, system, cert, back, claim.back)
}

/// A loop's most, as a sum that is at most 0.
fn most(system: &System, cert: &Cert, claim: &LoopClaim) -> Option<Running>
    requires form { IsInForm system.now.claims cert.now }
    requires flow { IsFlowEverywhere system.now cert.now }
    ensures none { IsNone result ↔ (2 ^ 126 ≤ size_by (λ t. t.1 *ℤ counts system.now cert.now t.0) (most_terms claim.now)) }
    ensures total { IfSome result (λ r. r.total ≡ applied (most_terms claim.now) (counts system.now cert.now)) }
{
    let back = whole(u64::from(claim.max));
    let header = difference(1, claim.max);
    let sum = add_count(nothing(), system, cert, header, claim.header)?;
    add_count(sum, system, cert, back, claim.back)
}

fn fails_loop(system: &System, cert: &Cert, claim: &LoopClaim) -> bool
    requires form { IsInForm system.now.claims cert.now }
    requires flow { IsFlowEverywhere system.now cert.now }
    ensures { result ≡ fails_loop (counts system.now cert.now) claim.now }
{
    let below = breaks(Compare::AtMost, least(system, cert, claim));
    let above = breaks(Compare::AtMost, most(system, cert, claim));
    below || above
}

/// The sum of a fact's left side.
fn add_left(sum: Running, system: &System, cert: &Cert, terms: &[(u32, i64)]) -> Option<Running>
    requires form { IsInForm system.now.claims cert.now }
    requires flow { IsFlowEverywhere system.now cert.now }
    ensures none { IsNone result ↔ (2 ^ 126 ≤ sum.size + size_by (λ t. t.1 *ℤ counts system.now cert.now t.0) terms.now) }
    ensures total { IfSome result (λ r. r.total ≡ sum.total +ℤ int_sum_by (λ t. t.1 *ℤ counts system.now cert.now t.0) terms.now) }
    ensures size { IfSome result (λ r. r.size ≡ sum.size + size_by (λ t. t.1 *ℤ counts system.now cert.now t.0) terms.now) }
{
    let mut all = sum;
    for i in 0..terms.len() {
        all = add_count(all, system, cert, i128::from(terms[i].1), terms[i].0)?;
    }
    Some(all)
}

/// Less that of its right side.
fn add_right(sum: Running, system: &System, cert: &Cert, terms: &[(u32, i64)]) -> Option<Running>
    requires form { IsInForm system.now.claims cert.now }
    requires flow { IsFlowEverywhere system.now cert.now }
    ensures none { IsNone result ↔ (2 ^ 126 ≤ sum.size + size_by (λ t. neg_ℤ t.1 *ℤ counts system.now cert.now t.0) terms.now) }
    ensures total { IfSome result (λ r. r.total ≡ sum.total +ℤ int_sum_by (λ t. neg_ℤ t.1 *ℤ counts system.now cert.now t.0) terms.now) }
{
    let mut all = sum;
    for i in 0..terms.len() {
        all = add_count(all, system, cert, opposite(terms[i].1), terms[i].0)?;
    }
    Some(all)
}

/// A fact's left side less its right side.
fn fact_sum(system: &System, cert: &Cert, claim: &FactClaim) -> Option<Running>
    requires form { IsInForm system.now.claims cert.now }
    requires flow { IsFlowEverywhere system.now cert.now }
    ensures none { IsNone result ↔ (2 ^ 126 ≤ size_by (λ t. t.1 *ℤ counts system.now cert.now t.0) (claim.now.left ++ negated claim.now.right)) }
    ensures total { IfSome result (λ r. r.total ≡ applied (claim.now.left ++ negated claim.now.right) (counts system.now cert.now)) }
{
    let left = add_left(nothing(), system, cert, claim.left.terms())?;
    add_right(left, system, cert, claim.right.terms())
}

fn fails_fact(system: &System, cert: &Cert, claim: &FactClaim) -> bool
    requires form { IsInForm system.now.claims cert.now }
    requires flow { IsFlowEverywhere system.now cert.now }
    ensures { result ≡ fails_fact (counts system.now cert.now) claim.now }
{
    breaks(claim.op, fact_sum(system, cert, claim))
}

fn first_never(system: &System, cert: &Cert, from: u32) -> Option<u32>
    requires form { IsInForm system.now.claims cert.now }
    requires flow { IsFlowEverywhere system.now cert.now }
    requires few { from + length system.now.claims.nevers < 2 ^ 32 }
    ensures { result ≡ first_failing (fails_never (counts system.now cert.now)) from system.now.claims.nevers }
{
    let claims = system.claims().nevers();
    for i in 0..claims.len() {
        if fails_never(system, cert, &claims[i]) {
            return Some(from + i as u32);
        }
    }
    None
}

fn first_loop(system: &System, cert: &Cert, from: u32) -> Option<u32>
    requires form { IsInForm system.now.claims cert.now }
    requires flow { IsFlowEverywhere system.now cert.now }
    requires few { from + length system.now.claims.loops < 2 ^ 32 }
    ensures { result ≡ first_failing (fails_loop (counts system.now cert.now)) from system.now.claims.loops }
{
    let claims = system.claims().loops();
    for i in 0..claims.len() {
        if fails_loop(system, cert, &claims[i]) {
            return Some(from + i as u32);
        }
    }
    None
}

fn first_fact(system: &System, cert: &Cert, from: u32) -> Option<u32>
    requires form { IsInForm system.now.claims cert.now }
    requires flow { IsFlowEverywhere system.now cert.now }
    requires few { from + length system.now.claims.facts < 2 ^ 32 }
    ensures { result ≡ first_failing (fails_fact (counts system.now cert.now)) from system.now.claims.facts }
{
    let claims = system.claims().facts();
    for i in 0..claims.len() {
        if fails_fact(system, cert, &claims[i]) {
            return Some(from + i as u32);
        }
    }
    None
}

/// The first claim that the counts of the listed flow don't keep.
pub fn first_unmet(system: &System, cert: &Cert) -> Option<u32>
    requires form { IsInForm system.now.claims cert.now }
    requires flow { IsFlowEverywhere system.now cert.now }
    ensures { result ≡ first_unmet system.now.claims (counts system.now cert.now) }
{
    let claims = system.claims();
    if let Some(claim) = first_never(system, cert, nevers_from(claims)) {
        return Some(claim);
    }
    if let Some(claim) = first_loop(system, cert, loops_from(claims)) {
        return Some(claim);
    }
    first_fact(system, cert, facts_from(claims))
}
