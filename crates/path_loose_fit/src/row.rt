// Worths that pay for moves.
ghost use Rattle.std.specs.Prelude.{◌≡◌, ◌↔◌, ◌<◌, ◌^◌, ◌+ℤ◌, ◌≤ℤ◌, true, unsigned_abs, length, All};
ghost use Rattle.rv_core.specs.Table.{table_of};
ghost use Rattle.code_flow_system.specs.Certificates.{AddressesAscend};
ghost use Rattle.code_flow_system.specs.Flows.{price};
ghost use Rattle.code_flow_system.specs.Systems.{IsPlaced};
ghost use Rattle.frac128.specs.Terms.{coefficient};
ghost use Rattle.loop_prices.specs.LoopPrices.{turns_at, IsPaid};
ghost use Rattle.path_walks.specs.Opens.{AddressesRise};
ghost use Rattle.path_loose_fit.specs.Rows.{worths_of, brought, IsWorth};

use crate::claim::{starts_from, turns_at};
use code_flow_lookup::{move_cost, potential};
use code_flow_system::{LoopClaim, Move, System};
use rv_core::Costs;

fn is_worth(z: i128) -> bool
    ensures { (result ≡ true) ↔ IsWorth z }
{
    z >= 0 && z <= 1 << 60
}

/// Whether no worth is negative, or larger than 2^60.
pub fn are_worths(places: &[(u32, i128)]) -> bool
    ensures { (result ≡ true) ↔ All (λ t. IsWorth t.1) places.now }
{
    for i in 0..places.len() {
        if !is_worth(places[i].1) {
            return false;
        }
    }
    true
}

/// The worth of an address.
pub fn worth_of(places: &[(u32, i128)], at: u32) -> i128
    requires ascending { AddressesAscend places.now }
    requires worths { All (λ t. IsWorth t.1) places.now }
    ensures value { result ≡ coefficient places.now at }
    ensures small { unsigned_abs result < 2 ^ 96 }
{
    potential(places, at)
}

/// What a move brings where it arrives.
fn brought(
    loops: &[LoopClaim],
    places: &[(u32, i128)],
    turns: &[u64],
    from: u32,
    to: Option<u32>,
) -> i128
    requires rises { AddressesRise (λ c. c.header) loops.now }
    requires long { length turns.now ≡ length loops.now }
    requires ascending { AddressesAscend places.now }
    requires worths { All (λ t. IsWorth t.1) places.now }
    ensures value { result ≡ brought loops.now (worths_of places.now turns.now) from to }
    ensures small { unsigned_abs result < 2 ^ 100 }
{
    match to {
        Some(at) => worth_of(places, at) + starts_from(loops, turns, from, at),
        None => 0,
    }
}

/// What an address has for a move.
fn held(loops: &[LoopClaim], places: &[(u32, i128)], turns: &[u64], at: u32) -> i128
    requires rises { AddressesRise (λ c. c.header) loops.now }
    requires long { length turns.now ≡ length loops.now }
    requires ascending { AddressesAscend places.now }
    requires worths { All (λ t. IsWorth t.1) places.now }
    ensures value { result ≡ coefficient places.now at +ℤ turns_at loops.now turns.now at }
    ensures small { unsigned_abs result < 2 ^ 100 }
{
    worth_of(places, at) + turns_at(loops, turns, at)
}

/// The cycles of a move.
fn price(system: &System, costs: &Costs, step: &Move) -> i128
    requires { IsPlaced step.now.at }
    ensures value { result ≡ price (table_of costs.now) system.now step.now }
    ensures small { unsigned_abs result < 2 ^ 100 }
{
    i128::from(move_cost(system, costs, step))
}

/// Three numbers added.
fn sum(a: i128, b: i128, c: i128) -> i128
    requires a { unsigned_abs a < 2 ^ 100 }
    requires b { unsigned_abs b < 2 ^ 100 }
    requires c { unsigned_abs c < 2 ^ 100 }
    ensures { result ≡ (a +ℤ b) +ℤ c }
{
    a + b + c
}

fn covers(held: i128, price: i128, to: i128, behind: i128) -> bool
    requires price { unsigned_abs price < 2 ^ 100 }
    requires to { unsigned_abs to < 2 ^ 100 }
    requires behind { unsigned_abs behind < 2 ^ 100 }
    ensures { (result ≡ true) ↔ (((price +ℤ to) +ℤ behind) ≤ℤ held) }
{
    sum(price, to, behind) <= held
}

/// Whether the worth of its address pays for a move.
fn is_paid(
    system: &System,
    costs: &Costs,
    places: &[(u32, i128)],
    turns: &[u64],
    step: &Move,
) -> bool
    requires placed { IsPlaced step.now.at }
    requires long { length turns.now ≡ length system.now.claims.loops }
    requires ascending { AddressesAscend places.now }
    requires worths { All (λ t. IsWorth t.1) places.now }
    ensures { (result ≡ true) ↔ IsPaid (price (table_of costs.now) system.now) system.now.claims.loops (worths_of places.now turns.now) step.now }
{
    system.is_system();
    let loops = system.claims().loops();
    let price = price(system, costs, step);
    let to = brought(loops, places, turns, step.at, step.to);
    let behind = brought(loops, places, turns, step.at, step.behind);
    covers(held(loops, places, turns, step.at), price, to, behind)
}

/// Whether each move is paid.
pub fn are_paid(system: &System, costs: &Costs, places: &[(u32, i128)], turns: &[u64]) -> bool
    requires long { length turns.now ≡ length system.now.claims.loops }
    requires ascending { AddressesAscend places.now }
    requires worths { All (λ t. IsWorth t.1) places.now }
    ensures { (result ≡ true) ↔ All (IsPaid (price (table_of costs.now) system.now) system.now.claims.loops (worths_of places.now turns.now)) system.now.moves }
{
    let moves = system.moves();
    for i in 0..moves.len() {
        if !is_paid(system, costs, places, turns, &moves[i]) {
            return false;
        }
    }
    true
}
