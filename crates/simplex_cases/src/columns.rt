// Columns and operators, as a line has them.
ghost use Rattle.std.specs.Prelude.{◌≡◌, ◌<◌, ◌^◌, unsigned_abs, true, IfOk, IfSome, All};
ghost use Rattle.simplex_rounds.specs.Rounds.{IsColumnOf};

use crate::numbers::numbers_of;
use code_flow_answer::Column;
use std::alloc::{AllocError, Global};
use wcc_base::{Compare, Items};

const MOST: u128 = 1 << 120;

/// Whether the size of each number is below 2^120.
fn are_small(numbers: &[i128]) -> bool
    ensures { result ≡ true → All (λ z. unsigned_abs z < 2 ^ 120) numbers.now }
{
    for i in 0..numbers.len() {
        if numbers[i].unsigned_abs() >= MOST {
            return false;
        }
    }
    true
}

/// A column, if it has so many totals and its numbers are small.
fn column(facts: usize, value: i128, totals: Vec<i128>) -> Option<Column>
    ensures { IfSome result (IsColumnOf facts) }
{
    if totals.len() != facts {
        return None;
    }
    if value.unsigned_abs() >= MOST {
        return None;
    }
    if !are_small(&totals) {
        return None;
    }
    Some(Column {
        value,
        totals: Items::new(totals),
    })
}

/// A value and its totals.
fn column_of(alloc: Global, facts: usize, text: &str) -> Result<Option<Column>, AllocError>
    ensures { IfOk result (λ o. IfSome o (IsColumnOf facts)) }
{
    let numbers = numbers_of(alloc, text)?;
    if numbers.len() == 0 {
        return Ok(None);
    }
    let totals = Vec::from_slice(alloc, &numbers[1..])?;
    Ok(column(facts, numbers[0], totals))
}

/// The columns that the parts between semicolons are.
pub fn columns_of(alloc: Global, facts: usize, text: &str) -> Result<Vec<Column>, AllocError>
    ensures { IfOk result (λ v. All (IsColumnOf facts) v.items) }
{
    let mut columns = Vec::new(alloc);
    for part in text.split(';') {
        if let Some(column) = column_of(alloc, facts, part)? {
            columns.push(column)?;
        }
    }
    Ok(columns)
}

pub fn ops_of(alloc: Global, text: &str) -> Result<Vec<Compare>, AllocError> {
    let mut ops = Vec::new(alloc);
    for word in text.split(' ') {
        match word {
            "<=" => ops.push(Compare::AtMost)?,
            ">=" => ops.push(Compare::AtLeast)?,
            "=" => ops.push(Compare::Equal)?,
            _ => {}
        }
    }
    Ok(ops)
}
