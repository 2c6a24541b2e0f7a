// Rounds, and the tables that they end with.
ghost use Rattle.std.specs.Prelude.{◌≡◌, ◌+◌, ◌<◌, ◌≤◌, ◌^◌, length, IfOk, All};
ghost use Rattle.simplex_tables.specs.Runs.{most_pivots};
ghost use Rattle.simplex_laws.specs.TableLaws.{NoRowIsLeft, PivotsKeepTables};
ghost use Rattle.simplex_rounds.specs.Rounds.{IsColumnOf, round_over};

use crate::columns::{columns_of, ops_of};
use crate::numbers::shown;
use code_flow_answer::Column;
use simplex_laws::{no_row_is_left, pivots_keep_tables};
use simplex_rounds::round;
use simplex_tables::{Ended, Ending, MOST_PIVOTS, Table};
use std::alloc::{AllocError, Global};
use wcc_base::Compare;

fn owns_shown(alloc: Global, owns: &[usize]) -> Result<String, AllocError> {
    let mut line = String::new(alloc);
    for own in owns {
        let word = format!(in alloc; " {own}")?;
        line.push_str(word.as_str())?;
    }
    Ok(line)
}

/// The variables that rows are solved for, the rows, and those of the objectives.
fn table_shown(alloc: Global, table: &Table) -> Result<String, AllocError> {
    let mut line = owns_shown(alloc, table.owns.as_slice())?;
    let rows = table.rows.as_slice();
    for i in 0..rows.len() {
        let row = shown(alloc, rows[i].as_slice())?;
        let part = format!(in alloc; " / {row}")?;
        line.push_str(part.as_str())?;
    }
    let one = shown(alloc, table.one.as_slice())?;
    let two = shown(alloc, table.two.as_slice())?;
    format!(in alloc; "{line} / {one} / {two}")
}

fn end_shown(alloc: Global, ending: Ending) -> Result<String, AllocError> {
    match ending {
        Ending::Second(table) => {
            let table = table_shown(alloc, &table)?;
            format!(in alloc; "second{table}")
        }
        Ending::First(table) => {
            let table = table_shown(alloc, &table)?;
            format!(in alloc; "first{table}")
        }
        Ending::TooWide => String::from_str(alloc, "wide"),
        Ending::NoPivots => String::from_str(alloc, "spent"),
        Ending::Unbounded => String::from_str(alloc, "unbounded"),
    }
}

/// A round, by pivots that keep what tables keep.
fn ended(alloc: Global, columns: &[Column], ops: &[Compare], made: u32) -> Result<Ended, AllocError>
    requires columns { All (IsColumnOf (length ops.now)) columns.now }
    requires few { length columns.now + length ops.now < 2 ^ 32 }
    requires made { made ≤ most_pivots }
    ensures value { IfOk result (λ r. r ≡ round_over ops.now made columns.now) }
    ensures keeps { PivotsKeepTables }
    ensures left { NoRowIsLeft }
{
    pivots_keep_tables();
    no_row_is_left();
    round(alloc, columns, ops, made)
}

/// How many pivots have been made when a round ends, and how it ends.
fn round_shown(
    alloc: Global,
    columns: &[Column],
    ops: &[Compare],
    made: u32,
) -> Result<String, AllocError>
    requires { All (IsColumnOf (length ops.now)) columns.now }
{
    if columns.len() > 1000 || ops.len() > 1000 || made > MOST_PIVOTS {
        return String::from_str(alloc, "no round");
    }
    let Ended { made, ending } = ended(alloc, columns, ops, made)?;
    let end = end_shown(alloc, ending)?;
    format!(in alloc; "{made} pivots, {end}")
}

pub fn table_answer(alloc: Global, text: &str) -> Result<String, AllocError> {
    let Some((head, columns)) = text.split_once(';') else {
        return String::from_str(alloc, "no columns");
    };
    let ops = ops_of(alloc, head)?;
    let columns = columns_of(alloc, ops.len(), columns)?;
    let made = head
        .split(' ')
        .next()
        .unwrap_or("")
        .parse::<u32>()
        .unwrap_or(0);
    round_shown(alloc, &columns, &ops, made)
}
