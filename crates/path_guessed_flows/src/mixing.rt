// Flows of columns, added modulo the prime.
ghost use Rattle.std.specs.Prelude.{◌≡◌, ◌<◌, length, IfOk, All};
ghost use Rattle.rv_core.specs.Table.{table_of};
ghost use Rattle.path_conditions.specs.Walking.{IsSearchable};
ghost use Rattle.path_fact_columns.specs.Adding.{AreAsked};

use crate::residues::{product, residue, sum};
use code_flow_system::{Move, Part};
use path_fact_columns::{Found, mixed};
use simplex_rounds::Weight;
use std::alloc::{AllocError, Global};

/// Whether a part is that of a move.
fn is_of(part: &Part, step: &Move) -> bool {
    part.at == step.at && part.number == step.number
}

/// An amount, raised by another one, so often.
fn raised(old: u128, often: u128, more: i128) -> u128 {
    sum(old, product(often, residue(more)))
}

/// Adds a flow, so often, to the amounts of the moves.
fn add(amounts: &mut Vec<u128>, moves: &[Move], parts: &[Part], often: u128)
    ensures { length amounts.new.items ≡ length amounts.old.items }
{
    let mut next = 0;
    for i in 0..moves.len() {
        if i < amounts.len() && next < parts.len() && is_of(&parts[next], &moves[i]) {
            amounts[i] = raised(amounts[i], often, parts[next].part);
            next = next + 1;
        }
    }
}

/// The flow of a column.
fn flow_of(alloc: Global, found: Found, column: usize) -> Result<Vec<Part>, AllocError>
    requires searchable { IsSearchable (table_of found.costs.now) found.system.now found.shapes.now found.spans.now }
    requires asked { All (AreAsked (table_of found.costs.now) found.system.now found.shapes.now found.spans.now) found.asked.now }
    requires within { column < length found.asked.now }
{
    let weight = Weight {
        column,
        top: 1,
        bottom: 1,
    };
    mixed(alloc, found, 1, &[weight])
}

/// The flow in which columns have these weights: how often each move is made, modulo the prime.
pub(crate) fn amounts_of(
    alloc: Global,
    found: Found,
    columns: &[usize],
    weights: &[u128],
) -> Result<Vec<u128>, AllocError>
    requires searchable { IsSearchable (table_of found.costs.now) found.system.now found.shapes.now found.spans.now }
    requires asked { All (AreAsked (table_of found.costs.now) found.system.now found.shapes.now found.spans.now) found.asked.now }
    requires columns { All (λ k. k < length found.asked.now) columns.now }
    ensures { IfOk result (λ v. length v.items ≡ length found.entry.system.now.moves) }
{
    let moves = found.system.moves();
    let mut amounts = vec![in alloc; 0; moves.len()]?;
    for k in 0..columns.len() {
        if k < weights.len() && weights[k] != 0 {
            let parts = flow_of(alloc, found, columns[k])?;
            add(&mut amounts, moves, &parts, weights[k]);
        }
    }
    Ok(amounts)
}
