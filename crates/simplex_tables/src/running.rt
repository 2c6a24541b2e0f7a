// Pivots one after the other.
ghost use Rattle.std.specs.Prelude.{◌≡◌, ◌+◌, ◌<◌, ◌≤◌, None, IfOk};
ghost use Rattle.simplex_tables.specs.Runs.{ends, next, last_of, pivots, most_pivots};
ghost use Rattle.simplex_tables.specs.Choices.{entering};
ghost use Rattle.simplex_tables.specs.Shapes.{IsShaped, HasEnded, KeepsShape};

use crate::choosing::{entering, in_first, leaving};
use crate::pivoting::pivoted;
use crate::table::Table;
use std::alloc::{AllocError, Global};

/// How pivots end.
#[derive(Drop)]
pub enum Ending {
    /// In the second phase: its objective is the greatest.
    Second(Table),
    /// In the first phase: the artificial variable is in and can't get less.
    First(Table),
    /// By a product above 2^120.
    TooWide,
    /// With one more pivot wanted, and none left.
    NoPivots,
    /// With no row to leave.
    Unbounded,
}

/// What follows a table.
#[derive(Drop)]
pub enum Outcome {
    Turns(Table),
    Wide,
    Ends(Ending),
}

/// How many pivots have been made in the end, and how they end.
#[derive(Drop)]
pub struct Ended {
    pub made: u32,
    pub ending: Ending,
}

/// There are no more pivots in all.
pub const MOST_PIVOTS: u32 = 10_000;

/// No variable improves: in the phase in which the table is.
fn ends(variables: usize, width: usize, table: Table) -> Ending
    requires shape { IsShaped width table }
    requires none { entering variables table ≡ None }
    ensures value { result ≡ ends table }
    ensures ended { HasEnded variables width result }
{
    if in_first(&table) {
        return Ending::First(table);
    }
    Ending::Second(table)
}

/// What the next pivot makes of a table.
fn next(alloc: Global, variables: usize, width: usize, table: Table) -> Result<Outcome, AllocError>
    requires shape { IsShaped width table }
    requires some { 0 < variables }
    requires fits { variables ≤ width }
    ensures value { IfOk result (λ n. n ≡ next variables table) }
    ensures shape { IfOk result (KeepsShape variables width) }
{
    let Some(place) = entering(variables, width, &table) else {
        return Ok(Outcome::Ends(ends(variables, width, table)));
    };
    let Some(choice) = leaving(place, width, &table) else {
        return Ok(Outcome::Ends(Ending::Unbounded));
    };
    match pivoted(alloc, place, choice.row, width, &table)? {
        None => Ok(Outcome::Wide),
        Some(new) => Ok(Outcome::Turns(new)),
    }
}

/// How a table ends that no pivot is left for.
fn last_of(variables: usize, width: usize, table: Table) -> Ending
    requires shape { IsShaped width table }
    requires some { 0 < variables }
    requires fits { variables ≤ width }
    ensures value { result ≡ last_of table (entering variables table) }
    ensures ended { HasEnded variables width result }
{
    match entering(variables, width, &table) {
        Some(_) => Ending::NoPivots,
        None => ends(variables, width, table),
    }
}

/// The pivots of a table of so many variables, as many as are left at most, after so many that were made before.
pub fn pivots(
    alloc: Global,
    left: u32,
    variables: usize,
    width: usize,
    made: u32,
    table: Table,
) -> Result<Ended, AllocError>
    requires shape { IsShaped width table }
    requires some { 0 < variables }
    requires fits { variables ≤ width }
    requires few { made + left ≤ most_pivots }
    ensures value { IfOk result (λ r. r ≡ pivots left variables made table) }
    ensures ended { IfOk result (λ r. HasEnded variables width r.ending) }
    ensures made { IfOk result (λ r. r.made ≤ most_pivots) }
{
    let mut table = table;
    for k in 0..left {
        match next(alloc, variables, width, table)? {
            Outcome::Turns(new) => table = new,
            Outcome::Wide => {
                return Ok(Ended {
                    made: made + k + 1,
                    ending: Ending::TooWide,
                });
            }
            Outcome::Ends(ending) => {
                return Ok(Ended {
                    made: made + k,
                    ending,
                });
            }
        }
    }
    Ok(Ended {
        made: made + left,
        ending: last_of(variables, width, table),
    })
}
