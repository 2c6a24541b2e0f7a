// Rounds, and what their ends say.
ghost use Rattle.std.specs.Prelude.{◌+◌, ◌<◌, ◌≤◌, ◌^◌, length, IfOk, All};
ghost use Rattle.simplex_tables.specs.Runs.{most_pivots};
ghost use Rattle.simplex_tables.specs.Shapes.{IsShaped, HasEnded, NoneNegative};
ghost use Rattle.simplex_rounds.specs.Rounds.{IsColumnOf};
ghost use Rattle.simplex_rounds.specs.Multiplied.{side_count, width};
ghost use Rattle.simplex_laws.specs.RoundLaws.{EndsWell};

use crate::columns::{columns_of, ops_of};
use crate::numbers::shown;
use code_flow_answer::Column;
use simplex_laws::rounds_end_well;
use simplex_rounds::{
    LIMIT, Multipliers, Weight, denominator, first_multipliers, numerator, round, round_value,
    second_multipliers, weights,
};
use simplex_tables::{Ended, Ending, MOST_PIVOTS, Table};
use std::alloc::{AllocError, Global};
use wcc_base::Compare;

/// No value of a first column is as large.
const MOST_VALUE: u128 = 1 << 60;

fn multipliers_shown(alloc: Global, found: Option<Multipliers>) -> Result<String, AllocError> {
    match found {
        None => String::from_str(alloc, "wide"),
        Some(found) => {
            let facts = shown(alloc, found.facts.as_slice())?;
            let scale = found.scale;
            format!(in alloc; "{facts} over {scale}")
        }
    }
}

/// A weight's numerator over a common denominator.
fn weight_shown(alloc: Global, all: u128, weight: Weight, times: u64) -> Result<String, AllocError>
    requires { 0 < times }
{
    let column = weight.column;
    if weight.bottom == 0 || weight.bottom > all || all > LIMIT {
        return format!(in alloc; "{column}*none ");
    }
    match numerator(all, weight, times) {
        Some(number) => format!(in alloc; "{column}*{number} "),
        None => format!(in alloc; "{column}*wide "),
    }
}

fn weights_shown(alloc: Global, weights: &[Weight], times: u64) -> Result<String, AllocError>
    requires times { 0 < times }
    requires positive { All (λ w. 0 < w.bottom) weights.now }
{
    let Some(all) = denominator(weights, times) else {
        return String::from_str(alloc, "wide");
    };
    let mut line = String::new(alloc);
    for i in 0..weights.len() {
        let part = weight_shown(alloc, all, weights[i], times)?;
        line.push_str(part.as_str())?;
    }
    format!(in alloc; "{line}over {all}")
}

/// What the end of the second phase says.
fn second_shown(
    alloc: Global,
    columns: &[Column],
    ops: &[Compare],
    table: &Table,
    times: u64,
) -> Result<String, AllocError>
    requires few { length ops.now < 2 ^ 32 }
    requires times { 0 < times }
    requires shape { IsShaped (width (length columns.now) ops.now) table.now }
    requires none { NoneNegative ((length columns.now + 1) + side_count ops.now) table.now.two }
{
    let found = second_multipliers(alloc, columns.len(), ops, table, times)?;
    let multipliers = multipliers_shown(alloc, found)?;
    let (top, bottom) = round_value(columns.len(), ops, table);
    let weights = weights(alloc, columns.len(), table.two.as_slice().len(), table)?;
    let weights = weights_shown(alloc, &weights, times)?;
    format!(in alloc; "second: {multipliers}, value {top}/{bottom}, weights {weights}")
}

/// What the end of the first phase says.
fn first_shown(
    alloc: Global,
    columns: &[Column],
    ops: &[Compare],
    table: &Table,
    times: u64,
) -> Result<String, AllocError>
    requires few { length ops.now < 2 ^ 32 }
    requires times { 0 < times }
    requires some { 0 < length columns.now }
    requires shape { IsShaped (width (length columns.now) ops.now) table.now }
    requires none { NoneNegative ((length columns.now + 1) + side_count ops.now) table.now.one }
{
    let value = columns[0].value;
    if value < 0 {
        return String::from_str(alloc, "first: no value");
    }
    if value.unsigned_abs() >= MOST_VALUE {
        return String::from_str(alloc, "first: no value");
    }
    let found = first_multipliers(alloc, columns.len(), ops, value, table, times)?;
    let multipliers = multipliers_shown(alloc, found)?;
    format!(in alloc; "first: {multipliers}")
}

/// How many pivots a round makes, and how it ends.
fn ended(alloc: Global, columns: &[Column], ops: &[Compare], made: u32) -> Result<Ended, AllocError>
    requires columns { All (IsColumnOf (length ops.now)) columns.now }
    requires few { length columns.now + length ops.now < 2 ^ 32 }
    requires some { 0 < length columns.now }
    requires made { made ≤ most_pivots }
    ensures ended { IfOk result (λ r. HasEnded ((length columns.now + 1) + side_count ops.now) (width (length columns.now) ops.now) r.ending) }
    ensures well { IfOk result (λ r. EndsWell columns.now ops.now r.ending) }
{
    rounds_end_well();
    round(alloc, columns, ops, made)
}

fn end_shown(
    alloc: Global,
    columns: &[Column],
    ops: &[Compare],
    ending: Ending,
    times: u64,
) -> Result<String, AllocError>
    requires few { length ops.now < 2 ^ 32 }
    requires times { 0 < times }
    requires some { 0 < length columns.now }
    requires ended { HasEnded ((length columns.now + 1) + side_count ops.now) (width (length columns.now) ops.now) ending }
    requires well { EndsWell columns.now ops.now ending }
{
    match ending {
        Ending::Second(table) => second_shown(alloc, columns, ops, &table, times),
        Ending::First(table) => first_shown(alloc, columns, ops, &table, times),
        Ending::TooWide => String::from_str(alloc, "wide"),
        Ending::NoPivots => String::from_str(alloc, "spent"),
        Ending::Unbounded => unreachable!(),
    }
}

fn round_shown(
    alloc: Global,
    columns: &[Column],
    ops: &[Compare],
    made: u32,
    times: u64,
) -> Result<String, AllocError>
    requires columns { All (IsColumnOf (length ops.now)) columns.now }
{
    if columns.len() == 0 {
        return String::from_str(alloc, "no columns");
    }
    if columns.len() > 1000 || ops.len() > 1000 {
        return String::from_str(alloc, "no columns");
    }
    if made > MOST_PIVOTS {
        return String::from_str(alloc, "no numbers");
    }
    if times == 0 {
        return String::from_str(alloc, "no numbers");
    }
    let Ended { made, ending } = ended(alloc, columns, ops, made)?;
    let end = end_shown(alloc, columns, ops, ending, times)?;
    format!(in alloc; "{made} pivots, {end}")
}

pub fn round_answer(alloc: Global, text: &str) -> Result<String, AllocError> {
    let Some((head, columns)) = text.split_once(';') else {
        return String::from_str(alloc, "no columns");
    };
    let ops = ops_of(alloc, head)?;
    let columns = columns_of(alloc, ops.len(), columns)?;
    let mut words = head.split(' ');
    let made = words.next().unwrap_or("").parse::<u32>().unwrap_or(0);
    let times = words.next().unwrap_or("").parse::<u64>().unwrap_or(0);
    round_shown(alloc, &columns, &ops, made, times)
}
