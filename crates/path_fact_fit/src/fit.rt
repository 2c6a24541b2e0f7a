// The test.
ghost use Rattle.std.specs.Prelude.{◌≡◌, ◌↔◌, true, IfOk, All};
ghost use Rattle.rv_core.specs.Table.{table_of};
ghost use Rattle.path_flows.specs.CountLaws.{HasBounds};
ghost use Rattle.path_conditions.specs.Searching.{CanSearch};
ghost use Rattle.path_fact_fit.specs.Few.{IsFewTerm, IsFewFact};

use code_flow_system::{FactClaim, LoopClaim, LoopShape, Span, System};
use frac128::Sum;
use path_fit::loops_fit;
use path_loose_fit::{counts_fit, values_fit};
use rv_core::Costs;
use std::alloc::Global;
use wcc_base::Memory;

fn has_bounds(claim: LoopClaim) -> bool
    ensures { (result ≡ true) ↔ HasBounds claim }
{
    claim.min <= claim.max || claim.max == 0
}

/// Whether no loop has to turn more often than it may.
fn have_bounds(loops: &[LoopClaim]) -> bool
    ensures { (result ≡ true) ↔ All HasBounds loops.now }
{
    for i in 0..loops.len() {
        if !has_bounds(loops[i]) {
            return false;
        }
    }
    true
}

fn is_few(term: (u32, i64)) -> bool
    ensures { (result ≡ true) ↔ IsFewTerm term }
{
    term.1 >= 0 && term.1 <= 1 << 10
}

/// Whether the numbers of a sum are small and not negative.
fn have_few(sum: &Sum) -> bool
    ensures { (result ≡ true) ↔ All IsFewTerm sum.now }
{
    let terms = sum.terms();
    for i in 0..terms.len() {
        if !is_few(terms[i]) {
            return false;
        }
    }
    true
}

fn is_few_fact(fact: &FactClaim) -> bool
    ensures { result ≡ true → IsFewFact fact.now }
{
    fact.left.terms().len() <= 64
        && fact.right.terms().len() <= 64
        && have_few(&fact.left)
        && have_few(&fact.right)
}

/// Whether the facts have few terms and small numbers.
fn are_few_facts(facts: &[FactClaim]) -> bool
    ensures { result ≡ true → All IsFewFact facts.now }
{
    for i in 0..facts.len() {
        if !is_few_fact(&facts[i]) {
            return false;
        }
    }
    true
}

/// Whether a search can be made under restrictions: whether loops and functions fit the system, loose flows have small values
/// and counts, and facts have few terms and small numbers. A yes is right.
pub fn can_search(
    alloc: Global,
    system: &System,
    shapes: &[LoopShape],
    spans: &[Span],
    costs: &Costs,
) -> Result<bool, Memory>
    ensures { IfOk result (λ can. can ≡ true → CanSearch (table_of costs.now) system.now shapes.now spans.now) }
{
    if !loops_fit(system, shapes, spans) {
        return Ok(false);
    }
    let facts = system.claims().facts();
    if facts.len() > 32 || !are_few_facts(facts) {
        return Ok(false);
    }
    if !have_bounds(system.claims().loops()) {
        return Ok(false);
    }
    if !values_fit(alloc, system, costs, spans)? {
        return Ok(false);
    }
    counts_fit(alloc, system, spans)
}
