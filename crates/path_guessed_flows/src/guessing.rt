// A flow of which columns and the equations of their weights are known.
ghost use Rattle.std.specs.Prelude.{◌<◌, length, IfOk, IfSome, All};
ghost use Rattle.rv_core.specs.Table.{table_of};
ghost use Rattle.path_conditions.specs.Walking.{IsSearchable};
ghost use Rattle.path_fact_columns.specs.Adding.{AreAsked};
ghost use Rattle.path_guessed_flows.specs.Guesses.{IsGuessed};

use crate::listing::listed;
use crate::mixing::amounts_of;
use crate::solving::solution;
use crate::units::unit_of;
use code_flow_system::Part;
use path_fact_columns::Found;
use std::alloc::{AllocError, Global};

/// A flow over a unit.
#[derive(Drop)]
pub struct Guessed {
    pub unit: u64,
    pub parts: Vec<Part>,
}

/// The flow in which columns have the weights that solve equations, over the least unit over which it is in whole numbers; none
/// where the equations have not one solution, or the unit is too great. Each column's flow is found again.
pub fn solved_flow(
    alloc: Global,
    found: Found,
    columns: &[usize],
    equations: &[i128],
) -> Result<Option<Guessed>, AllocError>
    requires searchable { IsSearchable (table_of found.costs.now) found.system.now found.shapes.now found.spans.now }
    requires asked { All (AreAsked (table_of found.costs.now) found.system.now found.shapes.now found.spans.now) found.asked.now }
    requires columns { All (λ k. k < length found.asked.now) columns.now }
    ensures { IfOk result (λ o. IfSome o IsGuessed) }
{
    let Some(weights) = solution(alloc, equations, columns.len())? else {
        return Ok(None);
    };
    let amounts = amounts_of(alloc, found, columns, &weights)?;
    let Some(unit) = unit_of(&amounts) else {
        return Ok(None);
    };
    let parts = listed(alloc, found.system.moves(), &amounts, unit)?;
    Ok(Some(Guessed { unit, parts }))
}
