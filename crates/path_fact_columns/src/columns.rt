// The column of a flow.
ghost use Rattle.std.specs.Prelude.{◌≡◌, ◌<◌, ◌^◌, pos, ◌*ℤ◌, ◌≤ℤ◌, ◌<ℤ◌, IfOk, All};
ghost use Rattle.rv_core.specs.Table.{table_of};
ghost use Rattle.code_flow_system.specs.Counts.{amount, count};
ghost use Rattle.code_flow_system.specs.Flows.{value};
ghost use Rattle.code_flow_system.specs.Certificates.{listed};
ghost use Rattle.code_flow_system.specs.Systems.{IsPlaced};
ghost use Rattle.code_flow_system.specs.Flows.{price};
ghost use Rattle.path_conditions.specs.Natural.{IsNaturalFact, both_totals};
ghost use Rattle.path_fact_kinds.specs.Columns.{totals_of, column_of};
ghost use Rattle.path_fact_columns.specs.Answers.{AreParts};

use crate::counting::{made, total_of};
use code_flow_answer::Column;
use code_flow_lookup::move_cost;
use code_flow_system::{Move, Part, System};
use rv_core::Costs;
use std::alloc::{AllocError, Global};
use wcc_base::Items;

/// What a flow pays for a move.
fn paid(system: &System, costs: &Costs, parts: &[Part], step: &Move) -> i128
    requires placed { IsPlaced step.now.at }
    requires parts { AreParts parts.now }
    ensures value { result ≡ amount (listed parts.now) step.now *ℤ price (table_of costs.now) system.now step.now }
    ensures positive { pos 0 ≤ℤ result }
    ensures small { result <ℤ pos (2 ^ 93) }
{
    made(parts, step) * i128::from(move_cost(system, costs, step))
}

/// The value of a flow.
fn value(system: &System, costs: &Costs, parts: &[Part]) -> i128
    requires parts { AreParts parts.now }
    requires small { value (table_of costs.now) system.now (listed parts.now) ≤ℤ pos (2 ^ 60) }
    ensures { result ≡ value (table_of costs.now) system.now (listed parts.now) }
{
    let moves = system.moves();
    let mut all = 0;
    for i in 0..moves.len() {
        all += paid(system, costs, parts, &moves[i]);
    }
    all
}

/// What a flow makes of each fact.
fn totals(alloc: Global, system: &System, parts: &[Part]) -> Result<Vec<i128>, AllocError>
    requires parts { AreParts parts.now }
    requires natural { All IsNaturalFact system.now.claims.facts }
    requires small { All (λ f. both_totals f (count (listed parts.now) system.now.moves) ≤ℤ pos (2 ^ 66)) system.now.claims.facts }
    ensures { IfOk result (λ v. v.items ≡ totals_of system.now.claims.facts (count (listed parts.now) system.now.moves)) }
{
    let facts = system.claims().facts();
    let mut totals = Vec::new(alloc);
    for i in 0..facts.len() {
        totals.push(total_of(system, parts, &facts[i]))?;
    }
    Ok(totals)
}

/// The column of a flow of one unit.
pub fn column(
    alloc: Global,
    system: &System,
    costs: &Costs,
    parts: &[Part],
) -> Result<Column, AllocError>
    requires parts { AreParts parts.now }
    requires value { value (table_of costs.now) system.now (listed parts.now) ≤ℤ pos (2 ^ 60) }
    requires natural { All IsNaturalFact system.now.claims.facts }
    requires small { All (λ f. both_totals f (count (listed parts.now) system.now.moves) ≤ℤ pos (2 ^ 66)) system.now.claims.facts }
    ensures { IfOk result (λ c. c ≡ column_of (table_of costs.now) system.now (listed parts.now)) }
{
    let value = value(system, costs, parts);
    let totals = totals(alloc, system, parts)?;
    Ok(Column {
        value,
        totals: Items::new(totals),
    })
}
