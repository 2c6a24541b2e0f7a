// Rounds.
ghost use Rattle.std.specs.Prelude.{◌≡◌, ◌+◌, ◌-◌, ◌<◌, ◌≤◌, ◌^◌, length, IfOk, All};
ghost use Rattle.simplex_tables.specs.Runs.{pivots, most_pivots};
ghost use Rattle.simplex_tables.specs.Shapes.{HasEnded};
ghost use Rattle.simplex_rounds.specs.Starts.{sides_from, started, variables};
ghost use Rattle.simplex_rounds.specs.Rounds.{IsColumnOf, round_over};

use crate::starting::{Side, sides, started};
use code_flow_answer::Column;
use simplex_tables::{Ended, MOST_PIVOTS, pivots};
use std::alloc::{AllocError, Global};
use wcc_base::Compare;

/// The pivots of the table of columns and sides.
fn run(
    alloc: Global,
    columns: &[Column],
    facts: usize,
    sides: &[Side],
    made: u32,
) -> Result<Ended, AllocError>
    requires columns { All (IsColumnOf facts) columns.now }
    requires sides { All (λ s. s.fact < facts) sides.now }
    requires few { length columns.now + length sides.now < 2 ^ 62 }
    requires made { made ≤ most_pivots }
    ensures value { IfOk result (λ r. r ≡ pivots (most_pivots - made) (variables columns.now sides.now) made (started columns.now sides.now)) }
    ensures ended { IfOk result (λ r. HasEnded (variables columns.now sides.now) (variables columns.now sides.now + 3) r.ending) }
    ensures made { IfOk result (λ r. r.made ≤ most_pivots) }
{
    let table = started(alloc, columns, facts, sides)?;
    let variables = columns.len() + 1 + sides.len();
    pivots(
        alloc,
        MOST_PIVOTS - made,
        variables,
        variables + 3,
        made,
        table,
    )
}

/// A round over columns, after so many pivots of the rounds before: how many there are when it ends, and how it ends.
pub fn round(
    alloc: Global,
    columns: &[Column],
    ops: &[Compare],
    made: u32,
) -> Result<Ended, AllocError>
    requires columns { All (IsColumnOf (length ops.now)) columns.now }
    requires few { length columns.now + length ops.now < 2 ^ 32 }
    requires made { made ≤ most_pivots }
    ensures value { IfOk result (λ r. r ≡ round_over ops.now made columns.now) }
    ensures ended { IfOk result (λ r. HasEnded (variables columns.now (sides_from 0 ops.now)) (variables columns.now (sides_from 0 ops.now) + 3) r.ending) }
    ensures made { IfOk result (λ r. r.made ≤ most_pivots) }
{
    let sides = sides(alloc, ops)?;
    run(alloc, columns, ops.len(), &sides, made)
}
