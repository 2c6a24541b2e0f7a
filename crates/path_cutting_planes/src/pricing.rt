// The multipliers of a solution.
ghost use Rattle.std.specs.Prelude.{◌≤◌, ◌<◌, ◌^◌, ◌*◌, unsigned_abs, IfOk, IfSome};
ghost use Rattle.simplex_laws.specs.RoundLaws.{HasSign};
ghost use Rattle.path_cutting_planes.specs.Guesses.{IsGuess};

use crate::cells::{cell, number_at};
use crate::master::{Master, sign, slack};
use crate::nearness::{common, fraction, rounded};
use simplex_rounds::Multipliers;
use std::alloc::{AllocError, Global};
use std::num::nearest_u64_to_f64;
use wcc_base::{Compare, Items};

/// No number, times one more than the number of loop claims, is greater.
const LIMIT: u64 = 1 << 44;

/// A scale is doubled up to so often.
const DOUBLED: usize = 20;

/// A number, or the next one within a limit.
fn within(number: i64, most: u64) -> i64
    requires { most ≤ 2 ^ 44 }
    ensures { unsigned_abs result ≤ most }
{
    let most = most as i64;
    if number > most {
        return most;
    }
    if number < -most {
        return -most;
    }
    number
}

/// A number, or 0 where it has not the sign of its fact.
fn signed(op: Compare, number: i64) -> i64
    ensures sign { HasSign op result }
    ensures small { unsigned_abs result ≤ unsigned_abs number }
{
    match op {
        Compare::AtMost => number.max(0),
        Compare::AtLeast => number.min(0),
        Compare::Equal => number,
    }
}

/// A multiplier over a scale, within a limit and with its fact's sign.
fn multiplier(op: Compare, price: f64, scale: u64, most: u64) -> i128
    requires { most ≤ 2 ^ 44 }
    ensures sign { HasSign op result }
    ensures small { unsigned_abs result ≤ most }
{
    let number = rounded(price * nearest_u64_to_f64(scale));
    i128::from(signed(op, within(number, most)))
}

/// Multipliers over a scale.
fn over(
    alloc: Global,
    ops: &[Compare],
    prices: &[f64],
    scale: u64,
    times: u64,
) -> Result<Multipliers, AllocError>
    requires times { 0 < times }
    requires some { 0 < scale }
    requires scale { scale * times ≤ 2 ^ 44 }
    ensures { IfOk result (IsGuess ops.now times) }
{
    let most = LIMIT / times;
    let mut facts = Vec::new(alloc);
    for fact in 0..ops.len() {
        let price = number_at(prices, fact, 0.0);
        facts.push(multiplier(ops[fact], price, scale, most))?;
    }
    Ok(Multipliers {
        scale: u128::from(scale),
        facts: Items::new(facts),
    })
}

/// The multipliers as floats: the dual values of the facts.
fn prices_of(alloc: Global, master: &Master) -> Result<Vec<f64>, AllocError> {
    let mut prices = Vec::new(alloc);
    for fact in 0..master.ops.len() {
        let place = slack(fact);
        let dual = master.worth(place) - cell(&master.cells, master.gains(), place);
        let size = number_at(&master.sizes, fact, 1.0);
        prices.push(sign(&master.ops, fact) * dual * master.unit / size)?;
    }
    Ok(prices)
}

/// Numbers half way to others.
fn halved(alloc: Global, numbers: &[f64], others: &[f64]) -> Result<Vec<f64>, AllocError> {
    let mut halves = Vec::new(alloc);
    for i in 0..numbers.len() {
        halves.push((numbers[i] + number_at(others, i, numbers[i])) / 2.0)?;
    }
    Ok(halves)
}

/// The prices that are asked next: those of the solution, or half way to those of the least bound.
fn next_prices(alloc: Global, master: &Master) -> Result<Vec<f64>, AllocError> {
    let prices = prices_of(alloc, master)?;
    if master.halves {
        return halved(alloc, &prices, &master.center);
    }
    Ok(prices)
}

/// The greatest of some numbers without their signs, and 1.
fn greatest(numbers: &[f64]) -> f64 {
    let mut most = 1.0;
    for i in 0..numbers.len() {
        most = numbers[i].abs().max(most);
    }
    most
}

/// The greatest power of 2 over which numbers keep a limit, up to 2^20.
fn scale_of(greatest: f64, limit: u64) -> u64
    requires { 0 < limit }
    ensures some { 0 < result }
    ensures small { result ≤ limit }
{
    let mut scale = 1;
    for _ in 0..DOUBLED {
        let fits = greatest * 2.0 * nearest_u64_to_f64(scale) <= nearest_u64_to_f64(limit);
        if fits && scale <= limit / 2 {
            scale = scale * 2;
        }
    }
    scale
}

/// The multipliers of the solution, rounded to whole numbers over the greatest scale up to 2^20 that keeps the limit: each, times
/// one more than the number of loop claims, is at most 2^44.
pub fn multipliers(
    alloc: Global,
    master: &mut Master,
    ops: &[Compare],
    times: u64,
) -> Result<Multipliers, AllocError>
    requires some { 0 < times }
    requires times { times ≤ 2 ^ 44 }
    ensures { IfOk result (IsGuess ops.now times) }
{
    let prices = next_prices(alloc, master)?;
    let scale = scale_of(greatest(&prices), LIMIT / times);
    let multipliers = over(alloc, ops, &prices, scale, times)?;
    master.asked = prices;
    Ok(multipliers)
}

/// Numbers as the fractions that are near to them.
fn fractions_of(alloc: Global, prices: &[f64], off: f64) -> Result<Vec<f64>, AllocError> {
    let mut fractions = Vec::new(alloc);
    for i in 0..prices.len() {
        fractions.push(fraction(prices[i], off))?;
    }
    Ok(fractions)
}

/// The multipliers of the solution as fractions that are so near to them; none where their common denominator is too great.
pub fn simplest(
    alloc: Global,
    master: &Master,
    ops: &[Compare],
    times: u64,
    off: f64,
) -> Result<Option<Multipliers>, AllocError>
    requires some { 0 < times }
    ensures { IfOk result (λ o. IfSome o (IsGuess ops.now times)) }
{
    let prices = prices_of(alloc, master)?;
    let Some(scale) = common(&prices, off, LIMIT / times) else {
        return Ok(None);
    };
    if scale > LIMIT / times {
        return Ok(None);
    }
    let fractions = fractions_of(alloc, &prices, off)?;
    let multipliers = over(alloc, ops, &fractions, scale, times)?;
    Ok(Some(multipliers))
}
