// The answer at multipliers, as a column or none.
ghost use Rattle.std.specs.Prelude.{◌≡◌, ◌<◌, ◌<ℤ◌, ◌≤ℤ◌, pos, true, false, IfOk, All};
ghost use Rattle.rv_core.specs.Table.{table_of};
ghost use Rattle.code_flow_system.specs.Certificates.{fact_limits, IsSigned};
ghost use Rattle.path_conditions.specs.Walking.{IsSearchable};
ghost use Rattle.path_fact_columns.specs.Answers.{answer_of};
ghost use Rattle.path_fact_columns.specs.Conditions.{AreNarrow};
ghost use Rattle.path_fact_columns.specs.Laws.{IsAnswer};
ghost use Rattle.path_enum.specs.Steps.{IsAsked};

use crate::marking::empty;
use code_flow_answer::Column;
use code_flow_system::{Cert, LoopShape, Span, System};
use path_fact_columns::{Answer, answer_at, column};
use path_fact_walks::{Multiplied, block};
use rv_core::Costs;
use simplex_rounds::Multipliers;
use std::alloc::{AllocError, Global};

/// A system, its loops and functions, and the costs of instructions.
#[derive(Clone, Copy)]
pub struct Searched<'a> {
    pub system: &'a System,
    pub shapes: &'a [LoopShape],
    pub spans: &'a [Span],
    pub costs: &'a Costs,
}

/// An answer with a flow, by its column.
#[derive(Drop)]
pub struct Answered {
    /// The bound, if it is below 2^60.
    pub cert: Option<Cert>,
    pub worth: i128,
    pub column: Column,
    pub multipliers: Multipliers,
}

/// An answer.
#[derive(Drop)]
pub enum Asked {
    NoFlow(Cert),
    Found(Answered),
}

/// What the walks find at multipliers of the facts.
fn walked(
    alloc: Global,
    searched: Searched,
    multipliers: &Multipliers,
) -> Result<Answer, AllocError>
    requires searchable { IsSearchable (table_of searched.costs.now) searched.system.now searched.shapes.now searched.spans.now }
    requires scale { 0 < multipliers.now.scale }
    requires narrow { AreNarrow searched.system.now multipliers.now.scale multipliers.now.facts }
    ensures value { IfOk result (λ a. a ≡ answer_of (table_of searched.entry.costs.now) searched.entry.system.now searched.entry.shapes.now searched.entry.spans.now multipliers.now.scale multipliers.now.facts) }
    ensures best { IfOk result (IsAnswer (table_of searched.entry.costs.now) searched.entry.system.now multipliers.now.scale multipliers.now.facts) }
{
    let Searched {
        system,
        shapes,
        spans,
        costs,
    } = searched;
    let scale = multipliers.scale as u64;
    let facts = multipliers.facts.as_slice();
    let multiplied = Multiplied {
        system,
        shapes,
        costs,
        scale,
        facts,
        low: block(scale, facts),
    };
    answer_at(alloc, multiplied, spans)
}

/// Whether there is no flow, by the worth of the entry.
fn is_negative(answer: &Answer) -> bool
    ensures negative { result ≡ true → answer.now.worth <ℤ pos 0 }
    ensures other { result ≡ false → pos 0 ≤ℤ answer.now.worth }
{
    answer.worth < 0
}

/// The answer at multipliers of the facts.
pub(crate) fn ask(
    alloc: Global,
    searched: Searched,
    multipliers: Multipliers,
) -> Result<Asked, AllocError>
    requires searchable { IsSearchable (table_of searched.costs.now) searched.system.now searched.shapes.now searched.spans.now }
    requires scale { 0 < multipliers.scale }
    requires narrow { AreNarrow searched.system.now multipliers.scale multipliers.facts }
    requires signs { All IsSigned (fact_limits searched.system.now.claims.facts multipliers.facts) }
    ensures { IfOk result (IsAsked (table_of searched.entry.costs.now) searched.entry.system.now searched.entry.shapes.now searched.entry.spans.now multipliers) }
{
    let answer = walked(alloc, searched, &multipliers)?;
    if is_negative(&answer) {
        return Ok(Asked::NoFlow(empty(answer.cert.unwrap())));
    }
    let column = column(
        alloc,
        searched.system,
        searched.costs,
        answer.parts.as_slice(),
    )?;
    Ok(Asked::Found(Answered {
        cert: answer.cert,
        worth: answer.worth,
        column,
        multipliers,
    }))
}
