// What a round leads to.
ghost use Rattle.std.specs.Prelude.{◌≡◌, ◌↔◌, ◌+◌, ◌<◌, ◌≤◌, ◌^◌, pos, ◌*ℤ◌, ◌<ℤ◌, ◌≤ℤ◌, length, true, IfOk};
ghost use Rattle.rv_core.specs.Table.{table_of};
ghost use Rattle.simplex_tables.specs.declared.running.Ending.TheVariants as endings;
ghost use Rattle.simplex_tables.specs.Rows.{entry};
ghost use Rattle.simplex_tables.specs.Choices.{right};
ghost use Rattle.simplex_tables.specs.Shapes.{HasEnded, IsShaped, NoneNegative};
ghost use Rattle.simplex_rounds.specs.Multiplied.{objective_place, side_count, width};
ghost use Rattle.simplex_laws.specs.RoundLaws.{column_at, EndsWell, IsInfeasible, IsOptimum};
ghost use Rattle.path_fact_kinds.specs.Columns.{ops_of};
ghost use Rattle.path_conditions.specs.Walking.{IsSearchable};
ghost use Rattle.path_fact_columns.specs.OptimumLaws.{AreAnswers};
ghost use Rattle.path_enum.specs.Steps.{AreFirst, HasFewRows, IsStep, IsStill};

use crate::asking::{Answered, Asked, Searched, ask};
use crate::marking::greatest;
use crate::weighing::common;
use code_flow_answer::Column;
use code_flow_system::{Cert, System};
use frac128::compare_ratios;
use path_fact_columns::{Found, first_answers_are_best, mixed, solved_are_greatest};
use simplex_rounds::{Multipliers, first_multipliers, round_value, second_multipliers, weights};
use simplex_tables::{Ending, Table};
use std::alloc::{AllocError, Global};
use std::cmp::Ordering;
use wcc_base::Compare;

/// What a round leads to.
#[derive(Drop)]
pub enum Step {
    /// A number is too wide, with the bound at the round's multipliers, if there is one below 2^60.
    Wide(Option<Cert>),
    /// No pivot is left.
    Spent,
    /// There is no flow.
    Empty(Cert),
    /// The weighted columns are the greatest flow.
    Greatest(Cert),
    /// Another column.
    Goes(Answered),
}

/// One more than the number of loops.
pub(crate) fn loop_factor(system: &System) -> u64
    ensures { result ≡ length system.now.claims.loops + 1 }
{
    system.claims().loops().len() as u64 + 1
}

/// The value of the first column.
fn first_value(columns: &[Column]) -> i128
    requires { 0 < length columns.now }
    ensures { result ≡ (column_at columns.now 0).value }
{
    columns[0].value
}

/// The end of the first phase: no flow, or another column.
fn after_first(
    alloc: Global,
    searched: Searched,
    columns: &[Column],
    ops: &[Compare],
    table: &Table,
) -> Result<Step, AllocError>
    requires searchable { IsSearchable (table_of searched.costs.now) searched.system.now searched.shapes.now searched.spans.now }
    requires ops { ops.now ≡ ops_of searched.system.now.claims.facts }
    requires columns { AreFirst (table_of searched.costs.now) searched.system.now columns.now }
    requires shape { IsShaped (width (length columns.now) ops.now) table.now }
    requires none { NoneNegative ((length columns.now + 1) + side_count ops.now) table.now.one }
    requires well { IsInfeasible columns.now ops.now table.now }
    ensures { IfOk result (IsStep (table_of searched.entry.costs.now) searched.entry.system.now searched.entry.shapes.now searched.entry.spans.now columns.now (endings.First table.now)) }
{
    first_answers_are_best(
        searched.system,
        searched.shapes,
        searched.spans,
        searched.costs,
    );
    let times = loop_factor(searched.system);
    let value = first_value(columns);
    let Some(multipliers) = first_multipliers(alloc, columns.len(), ops, value, table, times)?
    else {
        return Ok(Step::Wide(None));
    };
    match ask(alloc, searched, multipliers)? {
        Asked::NoFlow(cert) => Ok(Step::Empty(cert)),
        Asked::Found(answer) => Ok(Step::Goes(answer)),
    }
}

/// Whether an answer's worth over its scale is above the round's value.
fn improves(columns: usize, ops: &[Compare], table: &Table, answer: &Answered) -> bool
    requires few { length ops.now < 2 ^ 32 }
    requires shape { IsShaped (width columns ops.now) table.now }
    requires own { pos 1 ≤ℤ entry table.now.two (objective_place columns ops.now 1) }
    requires scale { 0 < answer.now.multipliers.scale }
    requires small { answer.now.multipliers.scale ≤ 2 ^ 44 }
    ensures { (result ≡ true) ↔ ((right table.now.two *ℤ pos answer.now.multipliers.scale) <ℤ (answer.now.worth *ℤ entry table.now.two (objective_place columns ops.now 1))) }
{
    let (top, bottom) = round_value(columns, ops, table);
    let scale = answer.multipliers.scale as i128;
    compare_ratios(top, bottom, answer.worth, scale) == Ordering::Less
}

/// The weighted columns as a flow of the value that the answer's certificate bounds.
fn weighed(
    alloc: Global,
    searched: Searched,
    columns: &[Column],
    asked: &[Multipliers],
    table: &Table,
    answer: Answered,
) -> Result<Step, AllocError>
    requires searchable { IsSearchable (table_of searched.costs.now) searched.system.now searched.shapes.now searched.spans.now }
    requires shape { IsShaped (width (length columns.now) (ops_of searched.system.now.claims.facts)) table.now }
    requires rows { length table.now.rows ≤ 2 ^ 10 }
    requires still { IsStill (table_of searched.costs.now) searched.system.now searched.shapes.now searched.spans.now asked.now columns.now table.now answer }
    ensures { IfOk result (IsStep (table_of searched.entry.costs.now) searched.entry.system.now searched.entry.shapes.now searched.entry.spans.now columns.now (endings.Second table.now)) }
{
    let Searched {
        system,
        shapes,
        spans,
        costs,
    } = searched;
    solved_are_greatest(system, shapes, spans, costs);
    let weights = weights(alloc, columns.len(), table.two.as_slice().len(), table)?;
    let Some(all) = common(&weights, loop_factor(system)) else {
        return Ok(Step::Wide(answer.cert));
    };
    let found = Found {
        system,
        shapes,
        spans,
        costs,
        asked,
    };
    let parts = mixed(alloc, found, all, &weights)?;
    let cert = answer.cert.unwrap();
    Ok(Step::Greatest(greatest(cert, all as u64, parts)))
}

/// The end of the second phase: another column, or the greatest flow.
fn after_second(
    alloc: Global,
    searched: Searched,
    columns: &[Column],
    ops: &[Compare],
    asked: &[Multipliers],
    table: &Table,
) -> Result<Step, AllocError>
    requires searchable { IsSearchable (table_of searched.costs.now) searched.system.now searched.shapes.now searched.spans.now }
    requires ops { ops.now ≡ ops_of searched.system.now.claims.facts }
    requires answers { AreAnswers (table_of searched.costs.now) searched.system.now searched.shapes.now searched.spans.now asked.now columns.now }
    requires shape { IsShaped (width (length columns.now) ops.now) table.now }
    requires none { NoneNegative ((length columns.now + 1) + side_count ops.now) table.now.two }
    requires well { IsOptimum columns.now ops.now table.now × (length table.now.rows ≤ 2 ^ 10) }
    ensures { IfOk result (IsStep (table_of searched.entry.costs.now) searched.entry.system.now searched.entry.shapes.now searched.entry.spans.now columns.now (endings.Second table.now)) }
{
    let times = loop_factor(searched.system);
    let Some(multipliers) = second_multipliers(alloc, columns.len(), ops, table, times)? else {
        return Ok(Step::Wide(None));
    };
    match ask(alloc, searched, multipliers)? {
        Asked::NoFlow(cert) => Ok(Step::Empty(cert)),
        Asked::Found(answer) => {
            if improves(columns.len(), ops, table, &answer) {
                return Ok(Step::Goes(answer));
            }
            weighed(alloc, searched, columns, asked, table, answer)
        }
    }
}

/// What the end of a round over all columns leads to.
pub(crate) fn next_step(
    alloc: Global,
    searched: Searched,
    columns: &[Column],
    ops: &[Compare],
    asked: &[Multipliers],
    ending: Ending,
) -> Result<Step, AllocError>
    requires searchable { IsSearchable (table_of searched.costs.now) searched.system.now searched.shapes.now searched.spans.now }
    requires ops { ops.now ≡ ops_of searched.system.now.claims.facts }
    requires first { AreFirst (table_of searched.costs.now) searched.system.now columns.now }
    requires answers { AreAnswers (table_of searched.costs.now) searched.system.now searched.shapes.now searched.spans.now asked.now columns.now }
    requires ended { HasEnded ((length columns.now + 1) + side_count ops.now) (width (length columns.now) ops.now) ending }
    requires rows { HasFewRows ending }
    requires well { EndsWell columns.now ops.now ending }
    ensures { IfOk result (IsStep (table_of searched.entry.costs.now) searched.entry.system.now searched.entry.shapes.now searched.entry.spans.now columns.now ending) }
{
    match ending {
        Ending::TooWide => Ok(Step::Wide(None)),
        Ending::NoPivots => Ok(Step::Spent),
        Ending::Unbounded => unreachable!(),
        Ending::First(table) => after_first(alloc, searched, columns, ops, &table),
        Ending::Second(table) => after_second(alloc, searched, columns, ops, asked, &table),
    }
}
