// Prices of moves that pay for facts.
ghost use Rattle.std.specs.Prelude.{◌≡◌, ◌≤◌, ◌<◌, ◌+◌, ◌*◌, ◌^◌, pos, ℤ, ◌*ℤ◌, ◌-ℤ◌, unsigned_abs, List, length, map, false, IfOk, All};
ghost use Rattle.frac128.specs.Terms.{coefficient};
ghost use Rattle.rv_core.specs.Table.{table_of};
ghost use Rattle.code_flow_system.specs.Systems.{IsPlaced};
ghost use Rattle.code_flow_system.specs.Certificates.{fact_limits, held};
ghost use Rattle.path_cert.specs.Priced.{fact_price, sizes_of, fact_low};
ghost use Rattle.path_fact_walks.specs.Sizes.{IsLimited, AreMultiplied};

use code_flow_lookup::{mentions_at, move_cost};
use code_flow_system::{FactClaim, LoopShape, Mention, Move, System};
use rv_core::Costs;
use std::alloc::{AllocError, Global};

/// A system with multipliers of its facts, over a scale.
#[derive(Clone, Copy)]
pub struct Multiplied<'a> {
    pub system: &'a System,
    pub shapes: &'a [LoopShape],
    pub costs: &'a Costs,
    pub scale: u64,
    pub facts: &'a [i128],
    /// The worth of a block.
    pub low: i128,
}

/// A fact's number at an address: that on its left less that on its right.
fn difference(fact: &FactClaim, at: u32) -> i128
    ensures value { result ≡ coefficient fact.now.left at -ℤ coefficient fact.now.right at }
    ensures small { unsigned_abs result < 2 ^ 65 }
{
    i128::from(fact.left.coefficient(at)) - i128::from(fact.right.coefficient(at))
}

/// A multiplied number.
#[tactic(auto, using(crate::proofs::SizeLemmas::product_small))]
fn times(multiplier: i128, number: i128) -> i128
    requires multiplier { IsLimited multiplier }
    requires number { unsigned_abs number < 2 ^ 65 }
    ensures value { result ≡ multiplier *ℤ number }
    ensures small { unsigned_abs result ≤ 2 ^ 109 }
{
    multiplier * number
}

/// What the multiplied facts have at an address.
fn held(facts: &[FactClaim], multipliers: &[i128], at: u32) -> i128
    requires count { length multipliers.now ≡ length facts.now }
    requires few { length facts.now ≤ 32 }
    requires small { All IsLimited multipliers.now }
    ensures value { result ≡ held (fact_limits facts.now multipliers.now) at }
    ensures small { unsigned_abs result ≤ 2 ^ 114 }
{
    let mut sum = 0;
    for i in 0..facts.len() {
        sum += times(multipliers[i], difference(&facts[i], at));
    }
    sum
}

/// The number of the first fact's limit.
fn first_fact(system: &System) -> usize
    ensures { result ≡ length system.now.claims.nevers + 2 * length system.now.claims.loops }
{
    let claims = system.claims();
    claims.nevers().len() + 2 * claims.loops().len()
}

/// Whether a mention is of a limit from one on.
fn any_from(mentions: &[Mention], first: usize) -> bool
    ensures { result ≡ false → All (λ m. m.limit < first) mentions.now }
{
    for i in 0..mentions.len() {
        if mentions[i].limit >= first {
            return true;
        }
    }
    false
}

/// Whether the index of a system has a fact at an address. At most addresses it has none.
fn is_mentioned(system: &System, at: u32) -> bool
    ensures { result ≡ false → (ys : List ℤ) → length ys ≡ length system.now.claims.facts → held (fact_limits system.now.claims.facts ys) at ≡ pos 0 }
{
    let first = first_fact(system);
    any_from(mentions_at(system.mentions(), at), first)
}

/// What the multiplied facts have at an address, quickly where none mentions it.
fn held_at(multiplied: Multiplied, at: u32) -> i128
    requires fits { AreMultiplied multiplied.system.now multiplied.scale multiplied.facts.now }
    ensures value { result ≡ held (fact_limits multiplied.entry.system.now.claims.facts multiplied.entry.facts.now) at }
    ensures small { unsigned_abs result ≤ 2 ^ 114 }
{
    if !is_mentioned(multiplied.system, at) {
        return 0;
    }
    held(multiplied.system.claims().facts(), multiplied.facts, at)
}

fn price(multiplied: Multiplied, step: &Move) -> i128
    requires placed { IsPlaced step.now.at }
    requires fits { AreMultiplied multiplied.system.now multiplied.scale multiplied.facts.now }
    ensures { result ≡ fact_price (table_of multiplied.entry.costs.now) multiplied.entry.system.now multiplied.entry.scale multiplied.entry.facts.now step.now }
{
    let Multiplied {
        system,
        costs,
        scale,
        ..
    } = multiplied;
    let cost = i128::from(move_cost(system, costs, step)) * i128::from(scale);
    cost - held_at(multiplied, step.at)
}

/// The prices of the moves, in their order.
pub fn prices(alloc: Global, multiplied: Multiplied) -> Result<Vec<i128>, AllocError>
    requires { AreMultiplied multiplied.system.now multiplied.scale multiplied.facts.now }
    ensures { IfOk result (λ v. v.items ≡ map (fact_price (table_of multiplied.entry.costs.now) multiplied.entry.system.now multiplied.entry.scale multiplied.entry.facts.now) multiplied.entry.system.now.moves) }
{
    let moves = multiplied.system.moves();
    let mut prices = Vec::new(alloc);
    for i in 0..moves.len() {
        prices.push(price(multiplied, &moves[i]))?;
    }
    Ok(prices)
}

/// The sizes of numbers, added.
fn sizes(numbers: &[i128]) -> u128
    requires few { length numbers.now ≤ 32 }
    requires small { All IsLimited numbers.now }
    ensures value { result ≡ sizes_of numbers.now }
    ensures small { result ≤ 2 ^ 49 }
{
    let mut size = 0;
    for i in 0..numbers.len() {
        size += numbers[i].unsigned_abs();
    }
    size
}

/// What a block is worth: it costs four times what a loose flow comes to at most.
pub fn block(scale: u64, multipliers: &[i128]) -> i128
    requires scale { scale ≤ 2 ^ 44 }
    requires few { length multipliers.now ≤ 32 }
    requires small { All IsLimited multipliers.now }
    ensures { result ≡ fact_low scale multipliers.now }
{
    let scale = if scale == 0 { 1 } else { scale };
    let most = (1 << 60) * u128::from(scale) + (1 << 66) * sizes(multipliers);
    -((4 * most) as i128)
}
