// How often a listed flow visits addresses, and what a fact's side comes to.
ghost use Rattle.std.specs.Prelude.{◌≡◌, ◌≤◌, ◌<◌, ◌^◌, pos, ◌*ℤ◌, ◌≤ℤ◌, ◌<ℤ◌, unsigned_abs};
ghost use Rattle.frac128.specs.Terms.{applied};
ghost use Rattle.code_flow_system.specs.Counts.{amount, count};
ghost use Rattle.code_flow_system.specs.Certificates.{listed};
ghost use Rattle.path_conditions.specs.Natural.{AreNatural, IsNaturalFact, both_totals};
ghost use Rattle.path_fact_kinds.specs.MixLaws.{total_of};
ghost use Rattle.path_fact_columns.specs.Answers.{AreParts};

use code_flow_lookup::{amount, moves_at};
use code_flow_system::{FactClaim, Move, Part, System};
use frac128::Sum;

/// How often a flow makes a move.
#[tactic(auto, using(crate::proofs::PartLemmas::listed_below))]
pub(crate) fn made(parts: &[Part], step: &Move) -> i128
    requires { AreParts parts.now }
    ensures value { result ≡ amount (listed parts.now) step.now }
    ensures least { pos 0 ≤ℤ result }
    ensures small { result <ℤ pos (2 ^ 60) }
{
    amount(parts, step.at, step.number)
}

/// How often a flow visits an address.
fn count_at(system: &System, parts: &[Part], at: u32) -> i128
    requires { AreParts parts.now }
    ensures value { result ≡ count (listed parts.now) system.now.moves at }
    ensures positive { pos 0 ≤ℤ result }
    ensures small { result <ℤ pos (2 ^ 124) }
{
    let steps = moves_at(system.moves(), at);
    let mut count = 0;
    for i in 0..steps.len() {
        count += made(parts, &steps[i]);
    }
    count
}

/// A number times a count.
fn times(coefficient: i64, count: i128) -> i128
    requires { unsigned_abs (coefficient *ℤ count) ≤ 2 ^ 66 }
    ensures { result ≡ coefficient *ℤ count }
{
    i128::from(coefficient) * count
}

/// What a side of a fact comes to.
fn side(system: &System, parts: &[Part], sum: &Sum) -> i128
    requires parts { AreParts parts.now }
    requires natural { AreNatural sum.now }
    requires small { applied sum.now (count (listed parts.now) system.now.moves) ≤ℤ pos (2 ^ 66) }
    ensures value { result ≡ applied sum.now (count (listed parts.now) system.now.moves) }
    ensures natural { pos 0 ≤ℤ result }
    ensures small { result ≤ℤ pos (2 ^ 66) }
{
    let terms = sum.terms();
    let mut all = 0;
    for i in 0..terms.len() {
        all += times(terms[i].1, count_at(system, parts, terms[i].0));
    }
    all
}

/// A fact's left side less its right side.
pub(crate) fn total_of(system: &System, parts: &[Part], fact: &FactClaim) -> i128
    requires parts { AreParts parts.now }
    requires natural { IsNaturalFact fact.now }
    requires small { both_totals fact.now (count (listed parts.now) system.now.moves) ≤ℤ pos (2 ^ 66) }
    ensures value { result ≡ total_of fact.now (count (listed parts.now) system.now.moves) }
    ensures small { unsigned_abs result ≤ 2 ^ 66 }
{
    side(system, parts, &fact.left) - side(system, parts, &fact.right)
}
