// The multipliers of facts.
ghost use Rattle.std.specs.Prelude.{◌≡◌, ◌+◌, ◌*◌, ◌<◌, ◌≤◌, ◌^◌, ◌∷◌, ◌*ℤ◌, ◌≤ℤ◌, pos, unsigned_abs, length, true, false, IfOk, IfSome, MatchOption};
ghost use Rattle.simplex_tables.specs.Rows.{entry};
ghost use Rattle.simplex_tables.specs.Choices.{right};
ghost use Rattle.simplex_tables.specs.Shapes.{IsShaped, NoneNegative};
ghost use Rattle.simplex_rounds.specs.Limits.{is_narrow, all_narrow};
ghost use Rattle.simplex_rounds.specs.Multiplied.{sides_in, side_count, one_dual, duals, objective_place, width, scaled, second_multipliers, first_multipliers, times_all, are_narrow};

use crate::limits::{LIMIT, all_narrow, is_narrow};
use simplex_tables::{Table, reduced, right};
use std::alloc::{AllocError, Global};
use wcc_base::{Compare, Items};

/// The multipliers of facts over a scale.
#[derive(Drop)]
pub struct Multipliers {
    pub scale: u128,
    pub facts: Items<i128>,
}

/// How many sides a fact has.
fn sides_in(op: Compare) -> usize
    ensures value { result ≡ sides_in op }
    ensures small { result ≤ 2 }
{
    match op {
        Compare::AtMost => 1,
        Compare::AtLeast => 1,
        Compare::Equal => 2,
    }
}

fn side_count(ops: &[Compare]) -> usize
    requires { length ops.now < 2 ^ 32 }
    ensures value { result ≡ side_count ops.now }
    ensures small { result ≤ 2 * length ops.now }
{
    let mut count = 0;
    for i in 0..ops.len() {
        count += sides_in(ops[i]);
    }
    count
}

/// The dual value of a fact whose first slack stands at a place.
fn one_dual(op: Compare, place: usize, row: &[i128]) -> i128
    requires within { place + 1 < length row.now }
    requires first { pos 0 ≤ℤ entry row.now place }
    requires second { sides_in op ≡ 2 → pos 0 ≤ℤ entry row.now (place + 1) }
    ensures { result ≡ one_dual op place row.now }
{
    match op {
        Compare::AtMost => row[place],
        Compare::AtLeast => -row[place],
        Compare::Equal => row[place] - row[place + 1],
    }
}

/// A number, and then the dual values of the facts whose slacks begin at a place.
fn dual_values(
    alloc: Global,
    first: i128,
    ops: &[Compare],
    from: usize,
    row: &[i128],
) -> Result<Vec<i128>, AllocError>
    requires from { 1 ≤ from }
    requires within { from + side_count ops.now < length row.now }
    requires none { NoneNegative (from + side_count ops.now) row.now }
    ensures value { IfOk result (λ v. v.items ≡ first ∷ duals from ops.now row.now) }
{
    let mut values = Vec::new(alloc);
    values.push(first)?;
    let mut place = from;
    for i in 0..ops.len() {
        values.push(one_dual(ops[i], place, row))?;
        place += sides_in(ops[i]);
    }
    Ok(values)
}

/// An objective's own number and the dual values, without a common divisor.
fn scaled(
    alloc: Global,
    columns: usize,
    ops: &[Compare],
    which: usize,
    row: &[i128],
) -> Result<Vec<i128>, AllocError>
    requires few { length ops.now < 2 ^ 32 }
    requires which { which ≤ 1 }
    requires long { length row.now ≡ width columns ops.now }
    requires none { NoneNegative ((columns + 1) + side_count ops.now) row.now }
    ensures value { IfOk result (λ v. v.items ≡ scaled columns ops.now which row.now) }
    ensures long { IfOk result (λ v. length v.items ≡ 1 + length ops.now) }
{
    let from = columns + 1;
    let own = row[from + side_count(ops) + which];
    let values = dual_values(alloc, own, ops, from, row)?;
    reduced(alloc, &values)
}

/// The multipliers at the end of the second phase; none where one of the numbers, times one more than the number of loop
/// claims, passes 2^44.
pub fn second_multipliers(
    alloc: Global,
    columns: usize,
    ops: &[Compare],
    table: &Table,
    times: u64,
) -> Result<Option<Multipliers>, AllocError>
    requires few { length ops.now < 2 ^ 32 }
    requires times { 0 < times }
    requires shape { IsShaped (width columns ops.now) table.now }
    requires none { NoneNegative ((columns + 1) + side_count ops.now) table.now.two }
    ensures value { IfOk result (λ o. MatchOption o (are_narrow times (second_multipliers columns ops.now table.now) ≡ false) (λ y. (y ≡ second_multipliers columns ops.now table.now) × (are_narrow times y ≡ true))) }
    ensures long { IfOk result (λ o. IfSome o (λ y. length y.facts ≡ length ops.now)) }
{
    let row = scaled(alloc, columns, ops, 1, table.two.as_slice())?;
    let scale = row[0].unsigned_abs();
    if !is_narrow(scale, times) {
        return Ok(None);
    }
    if !all_narrow(&row[1..], times) {
        return Ok(None);
    }
    let facts = Vec::from_slice(alloc, &row[1..])?;
    Ok(Some(Multipliers {
        scale,
        facts: Items::new(facts),
    }))
}

/// A number times a factor; none where the product, times another one, passes the limit.
#[tactic(auto, using(crate::proofs::StepLemmas::product_fits))]
fn product(number: i128, factor: i128, times: u64) -> Option<i128>
    requires times { 0 < times }
    requires positive { pos 1 ≤ℤ factor }
    requires small { unsigned_abs factor ≤ 2 ^ 60 }
    ensures { MatchOption result (is_narrow times (unsigned_abs (factor *ℤ number)) ≡ false) (λ z. (z ≡ factor *ℤ number) × (is_narrow times (unsigned_abs z) ≡ true)) }
{
    if number.unsigned_abs() > LIMIT {
        return None;
    }
    let product = factor * number;
    if !is_narrow(product.unsigned_abs(), times) {
        return None;
    }
    Some(product)
}

/// Each number times a factor; none where a product, times another one, passes the limit.
fn products(
    alloc: Global,
    numbers: &[i128],
    factor: i128,
    times: u64,
) -> Result<Option<Vec<i128>>, AllocError>
    requires times { 0 < times }
    requires positive { pos 1 ≤ℤ factor }
    requires small { unsigned_abs factor ≤ 2 ^ 60 }
    ensures value { IfOk result (λ o. MatchOption o (all_narrow times (times_all factor numbers.now) ≡ false) (λ v. (v.items ≡ times_all factor numbers.now) × (all_narrow times v.items ≡ true))) }
{
    let mut all = Vec::new(alloc);
    for i in 0..numbers.len() {
        match product(numbers[i], factor, times) {
            Some(z) => all.push(z)?,
            None => return Ok(None),
        }
    }
    Ok(Some(all))
}

/// The multipliers at the end of the first phase, where `value` is that of the first column; none where one of them, times
/// one more than the number of loop claims, passes 2^44.
pub fn first_multipliers(
    alloc: Global,
    columns: usize,
    ops: &[Compare],
    value: i128,
    table: &Table,
    times: u64,
) -> Result<Option<Multipliers>, AllocError>
    requires few { length ops.now < 2 ^ 32 }
    requires times { 0 < times }
    requires low { pos 0 ≤ℤ value }
    requires high { unsigned_abs value < 2 ^ 60 }
    requires shape { IsShaped (width columns ops.now) table.now }
    requires none { NoneNegative ((columns + 1) + side_count ops.now) table.now.one }
    ensures value { IfOk result (λ o. MatchOption o (all_narrow times (first_multipliers columns ops.now value table.now).facts ≡ false) (λ y. (y ≡ first_multipliers columns ops.now value table.now) × (all_narrow times y.facts ≡ true))) }
    ensures long { IfOk result (λ o. IfSome o (λ y. length y.facts ≡ length ops.now)) }
{
    let row = scaled(alloc, columns, ops, 0, table.one.as_slice())?;
    match products(alloc, &row[1..], value + 1, times)? {
        None => Ok(None),
        Some(facts) => Ok(Some(Multipliers {
            scale: 1,
            facts: Items::new(facts),
        })),
    }
}

/// The weighted value at the end of the second phase: the right side of the objective's row, over its own number.
pub fn round_value(columns: usize, ops: &[Compare], table: &Table) -> (i128, i128)
    requires few { length ops.now < 2 ^ 32 }
    requires shape { IsShaped (width columns ops.now) table.now }
    ensures top { result.0 ≡ right table.now.two }
    ensures bottom { result.1 ≡ entry table.now.two (objective_place columns ops.now 1) }
{
    let row = table.two.as_slice();
    (right(row), row[columns + 1 + side_count(ops) + 1])
}
