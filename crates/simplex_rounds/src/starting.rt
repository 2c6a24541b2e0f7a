// The table that a round begins with.
ghost use Rattle.std.specs.Prelude.{◌≡◌, ◌+◌, ◌<◌, ◌^◌, ◌++◌, ◌∷◌, [], ◌==◌, pos, length, replicate, true, unsigned_abs, IfOk, OnOk, All, if◌then◌else◌};
ghost use Rattle.simplex_rounds.specs.Starts.{sides_of, sides_from, sign_of, sided, side_totals, slacks, side_row, side_rows, whole_row, first_row, values_of, second_row, own_slacks, started};
ghost use Rattle.simplex_rounds.specs.Rounds.{IsColumnOf};

use code_flow_answer::Column;
use simplex_tables::Table;
use std::alloc::{AllocError, Global};
use wcc_base::{Compare, Items};

/// One side of a fact: a total, or its negation, is at most 0.
#[derive(Clone, Copy)]
pub struct Side {
    pub fact: usize,
    pub negated: bool,
}

/// Adds the sides of a fact.
fn add_sides(sides: &mut Vec<Side>, fact: usize, op: Compare) -> Result<(), AllocError>
    ensures { OnOk result (sides.new.items ≡ sides.old.items ++ sides_of fact op) }
{
    match op {
        Compare::AtMost => {
            sides.push(Side {
                fact,
                negated: false,
            })?;
            Ok(())
        }
        Compare::AtLeast => {
            sides.push(Side {
                fact,
                negated: true,
            })?;
            Ok(())
        }
        Compare::Equal => {
            sides.push(Side {
                fact,
                negated: false,
            })?;
            sides.push(Side {
                fact,
                negated: true,
            })?;
            Ok(())
        }
    }
}

/// The sides of all facts.
pub(crate) fn sides(alloc: Global, ops: &[Compare]) -> Result<Vec<Side>, AllocError>
    ensures { IfOk result (λ v. v.items ≡ sides_from 0 ops.now) }
{
    let mut sides = Vec::new(alloc);
    for i in 0..ops.len() {
        add_sides(&mut sides, i, ops[i])?;
    }
    Ok(sides)
}

fn sign_of(negated: bool, number: i128) -> i128
    requires { unsigned_abs number < 2 ^ 120 }
    ensures { result ≡ sign_of negated number }
{
    if negated { -number } else { number }
}

/// A column's total on a side.
fn sided(side: Side, column: &Column) -> i128
    requires fact { side.fact < length column.now.totals }
    requires small { All (λ z. unsigned_abs z < 2 ^ 120) column.now.totals }
    ensures { result ≡ sided side column.now }
{
    sign_of(side.negated, column.totals.as_slice()[side.fact])
}

fn push_totals(
    row: &mut Vec<i128>,
    side: Side,
    columns: &[Column],
    facts: usize,
) -> Result<(), AllocError>
    requires columns { All (IsColumnOf facts) columns.now }
    requires fact { side.fact < facts }
    ensures { OnOk result (row.new.items ≡ row.old.items ++ side_totals side columns.now) }
{
    for i in 0..columns.len() {
        row.push(sided(side, &columns[i]))?;
    }
    Ok(())
}

fn one_at(place: usize, own: usize) -> i128
    ensures { result ≡ if place == own then pos 1 else pos 0 }
{
    if place == own { 1 } else { 0 }
}

fn push_slacks(row: &mut Vec<i128>, own: usize, sides: &[Side]) -> Result<(), AllocError>
    ensures { OnOk result (row.new.items ≡ row.old.items ++ slacks own 0 sides.now) }
{
    for k in 0..sides.len() {
        row.push(one_at(k, own))?;
    }
    Ok(())
}

fn push_many(
    alloc: Global,
    row: &mut Vec<i128>,
    number: i128,
    count: usize,
) -> Result<(), AllocError>
    ensures { OnOk result (row.new.items ≡ row.old.items ++ replicate count number) }
{
    let more = vec![in alloc; number; count]?;
    row.extend_from_slice(&more)?;
    Ok(())
}

/// The numbers of the objectives, and the right side.
fn push_ends(row: &mut Vec<i128>, one: i128, two: i128, right: i128) -> Result<(), AllocError>
    ensures { OnOk result (row.new.items ≡ row.old.items ++ one ∷ two ∷ right ∷ []) }
{
    row.push(one)?;
    row.push(two)?;
    row.push(right)?;
    Ok(())
}

fn side_row(
    alloc: Global,
    columns: &[Column],
    facts: usize,
    sides: &[Side],
    place: usize,
    side: Side,
) -> Result<Items<i128>, AllocError>
    requires columns { All (IsColumnOf facts) columns.now }
    requires fact { side.fact < facts }
    ensures { IfOk result (λ r. r ≡ side_row columns.now sides.now place side) }
{
    let mut row = Vec::new(alloc);
    row.push(0)?;
    push_totals(&mut row, side, columns, facts)?;
    push_slacks(&mut row, place, sides)?;
    push_ends(&mut row, 0, 0, 0)?;
    Ok(Items::new(row))
}

fn push_side_rows(
    alloc: Global,
    rows: &mut Vec<Items<i128>>,
    columns: &[Column],
    facts: usize,
    sides: &[Side],
) -> Result<(), AllocError>
    requires columns { All (IsColumnOf facts) columns.now }
    requires sides { All (λ s. s.fact < facts) sides.now }
    ensures { OnOk result (rows.new.items ≡ rows.old.items ++ side_rows columns.now sides.now 0 sides.now) }
{
    for i in 0..sides.len() {
        let row = side_row(alloc, columns, facts, sides, i, sides[i])?;
        rows.push(row)?;
    }
    Ok(())
}

/// The weights and the artificial variable are 1.
fn whole_row(alloc: Global, columns: usize, sides: usize) -> Result<Items<i128>, AllocError>
    ensures { IfOk result (λ r. r ≡ whole_row columns sides) }
{
    let mut row = Vec::new(alloc);
    row.push(1)?;
    push_many(alloc, &mut row, 1, columns)?;
    push_many(alloc, &mut row, 0, sides)?;
    push_ends(&mut row, 0, 0, 1)?;
    Ok(Items::new(row))
}

fn first_row(alloc: Global, columns: usize, sides: usize) -> Result<Items<i128>, AllocError>
    ensures { IfOk result (λ r. r ≡ first_row columns sides) }
{
    let mut row = Vec::new(alloc);
    row.push(0)?;
    push_many(alloc, &mut row, -1, columns)?;
    push_many(alloc, &mut row, 0, sides)?;
    push_ends(&mut row, 1, 0, -1)?;
    Ok(Items::new(row))
}

fn negated(number: i128) -> i128
    requires { unsigned_abs number < 2 ^ 120 }
    ensures { result ≡ sign_of true number }
{
    -number
}

fn push_values(row: &mut Vec<i128>, columns: &[Column], facts: usize) -> Result<(), AllocError>
    requires { All (IsColumnOf facts) columns.now }
    ensures { OnOk result (row.new.items ≡ row.old.items ++ values_of columns.now) }
{
    for i in 0..columns.len() {
        row.push(negated(columns[i].value))?;
    }
    Ok(())
}

fn second_row(
    alloc: Global,
    columns: &[Column],
    facts: usize,
    sides: usize,
) -> Result<Items<i128>, AllocError>
    requires { All (IsColumnOf facts) columns.now }
    ensures { IfOk result (λ r. r ≡ second_row columns.now sides) }
{
    let mut row = Vec::new(alloc);
    row.push(0)?;
    push_values(&mut row, columns, facts)?;
    push_many(alloc, &mut row, 0, sides)?;
    push_ends(&mut row, 0, 1, 0)?;
    Ok(Items::new(row))
}

/// The slacks of the sides, and then the artificial variable.
fn owns(alloc: Global, columns: usize, sides: &[Side]) -> Result<Items<usize>, AllocError>
    requires { columns + length sides.now < 2 ^ 62 }
    ensures { IfOk result (λ v. v ≡ own_slacks (columns + 1) sides.now ++ 0 ∷ []) }
{
    let mut owns = Vec::new(alloc);
    for i in 0..sides.len() {
        owns.push(columns + 1 + i)?;
    }
    owns.push(0)?;
    Ok(Items::new(owns))
}

/// The table that a round over these columns begins with.
pub(crate) fn started(
    alloc: Global,
    columns: &[Column],
    facts: usize,
    sides: &[Side],
) -> Result<Table, AllocError>
    requires columns { All (IsColumnOf facts) columns.now }
    requires sides { All (λ s. s.fact < facts) sides.now }
    requires few { length columns.now + length sides.now < 2 ^ 62 }
    ensures { IfOk result (λ b. b ≡ started columns.now sides.now) }
{
    let owns = owns(alloc, columns.len(), sides)?;
    let mut rows = Vec::new(alloc);
    push_side_rows(alloc, &mut rows, columns, facts, sides)?;
    rows.push(whole_row(alloc, columns.len(), sides.len())?)?;
    let one = first_row(alloc, columns.len(), sides.len())?;
    let two = second_row(alloc, columns, facts, sides.len())?;
    Ok(Table {
        owns,
        rows: Items::new(rows),
        one,
        two,
    })
}
