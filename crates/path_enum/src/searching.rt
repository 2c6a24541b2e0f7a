// The rounds of a search.
ghost use Rattle.std.specs.Prelude.{◌≡◌, ◌≢◌, ◌+◌, ◌<◌, ◌≤◌, ◌++◌, ◌∷◌, [], length, Some, IsSome, IfOk, IfSome, All};
ghost use Rattle.rv_core.specs.Table.{table_of};
ghost use Rattle.code_flow_answer.specs.declared.bounded.Kind.TheVariants as kinds;
ghost use Rattle.simplex_tables.specs.Runs.{most_pivots};
ghost use Rattle.simplex_tables.specs.Shapes.{HasEnded};
ghost use Rattle.simplex_rounds.specs.Rounds.{IsColumnOf, round_over};
ghost use Rattle.simplex_rounds.specs.Multiplied.{side_count, width};
ghost use Rattle.simplex_laws.specs.RoundLaws.{EndsWell};
ghost use Rattle.path_fact_kinds.specs.Columns.{ops_of};
ghost use Rattle.path_conditions.specs.Walking.{IsSearchable};
ghost use Rattle.path_enum.specs.Marks.{found, least_of};
ghost use Rattle.path_enum.specs.Steps.{HasFewRows, IsBegun, IsNoLess};
ghost use Rattle.path_enum.specs.Least.{IsEnded};
ghost use Rattle.path_enum.specs.States.{IsGoing, IsTurn, IsWithAnother};

use crate::asking::{Answered, Searched};
use crate::marking::least_of;
use crate::stepping::{Step, next_step};
use code_flow_answer::{Bounded, Column, Kind};
use code_flow_system::{Cert, System};
use simplex_laws::rounds_end_well;
use simplex_rounds::{Multipliers, round};
use simplex_tables::Ended;
use std::alloc::{AllocError, Global};
use wcc_base::{Compare, Items};

/// No search goes on with more columns.
const MOST_COLUMNS: usize = 200;

/// What a search has so far.
#[derive(Drop)]
pub struct State {
    pub columns: Vec<Column>,
    /// The multipliers at which each column was found.
    pub asked: Vec<Multipliers>,
    /// The least bound.
    pub least: Cert,
    /// How many pivots were made.
    pub made: u32,
    /// The multipliers that the second search tried.
    pub tried: Vec<Multipliers>,
}

/// What a round makes of it.
#[derive(Drop)]
pub enum Turn {
    Ends(Bounded),
    Goes(State),
}

/// The operators of the facts.
pub(crate) fn ops_of(alloc: Global, system: &System) -> Result<Vec<Compare>, AllocError>
    ensures { IfOk result (λ v. v.items ≡ ops_of system.now.claims.facts) }
{
    let facts = system.claims().facts();
    let mut ops = Vec::new(alloc);
    for i in 0..facts.len() {
        ops.push(facts[i].op)?;
    }
    Ok(ops)
}

/// The answer of a search, by its certificate and kind.
fn found(cert: Cert, kind: Kind, columns: Vec<Column>) -> Bounded
    ensures { result ≡ found cert kind columns.items }
{
    Bounded {
        cert,
        kind,
        columns: Items::new(columns),
    }
}

/// How many columns and pivots did not suffice.
fn spent(columns: usize, pivots: u32) -> Kind
    requires { columns ≤ 200 }
    ensures { result ≡ kinds.Spent columns pivots }
{
    Kind::Spent {
        columns: columns as u32,
        pivots,
    }
}

/// A search with its first column.
fn begun(alloc: Global, first: Answered, tried: Vec<Multipliers>) -> Result<State, AllocError>
    requires { IsSome first.cert }
    ensures tried { IfOk result (λ g. g.tried.items ≡ tried.items) }
    ensures columns { IfOk result (λ g. g.columns.items ≡ first.column ∷ []) }
    ensures asked { IfOk result (λ g. g.asked.items ≡ first.multipliers ∷ []) }
    ensures least { IfOk result (λ g. first.cert ≡ Some g.least) }
    ensures made { IfOk result (λ g. g.made ≡ 0) }
{
    let Answered {
        cert,
        worth: _,
        column,
        multipliers,
    } = first;
    let mut columns = Vec::new(alloc);
    columns.push(column)?;
    let mut asked = Vec::new(alloc);
    asked.push(multipliers)?;
    Ok(State {
        columns,
        asked,
        least: cert.unwrap(),
        made: 0,
        tried,
    })
}

/// A search with one more column.
fn grown(state: State, answer: Answered, made: u32) -> Result<State, AllocError>
    ensures columns { IfOk result (λ g. g.columns.items ≡ state.columns.items ++ answer.column ∷ []) }
    ensures asked { IfOk result (λ g. g.asked.items ≡ state.asked.items ++ answer.multipliers ∷ []) }
    ensures least { IfOk result (λ g. g.least ≡ least_of state.least answer.cert) }
    ensures made { IfOk result (λ g. g.made ≡ made) }
    ensures tried { IfOk result (λ g. g.tried.items ≡ state.tried.items) }
{
    let Answered {
        cert,
        worth: _,
        column,
        multipliers,
    } = answer;
    let State {
        mut columns,
        mut asked,
        least,
        made: _,
        tried,
    } = state;
    columns.push(column)?;
    asked.push(multipliers)?;
    Ok(State {
        columns,
        asked,
        least: least_of(least, cert),
        made,
        tried,
    })
}

/// The round over some columns, which ends well.
fn ended(alloc: Global, columns: &[Column], ops: &[Compare], made: u32) -> Result<Ended, AllocError>
    requires columns { All (IsColumnOf (length ops.now)) columns.now }
    requires some { 0 < length columns.now }
    requires few { length columns.now ≤ 200 }
    requires few_ops { length ops.now ≤ 32 }
    requires made { made ≤ most_pivots }
    ensures value { IfOk result (λ r. r ≡ round_over ops.now made columns.now) }
    ensures ended { IfOk result (λ r. HasEnded ((length columns.now + 1) + side_count ops.now) (width (length columns.now) ops.now) r.ending) }
    ensures rows { IfOk result (λ r. HasFewRows r.ending) }
    ensures well { IfOk result (λ r. EndsWell columns.now ops.now r.ending) }
    ensures made { IfOk result (λ r. r.made ≤ most_pivots) }
{
    rounds_end_well();
    round(alloc, columns, ops, made)
}

/// What another column makes of a search: it goes on with it, or there are too many.
fn with_another(state: State, answer: Answered, made: u32) -> Result<Turn, AllocError>
    ensures { IfOk result (IsWithAnother state answer made) }
{
    if state.columns.len() == MOST_COLUMNS {
        let kind = spent(state.columns.len(), made);
        let cert = least_of(state.least, answer.cert);
        return Ok(Turn::Ends(found(cert, kind, state.columns)));
    }
    let state = grown(state, answer, made)?;
    Ok(Turn::Goes(state))
}

/// One round of a search.
fn turned(
    alloc: Global,
    searched: Searched,
    ops: &[Compare],
    state: State,
) -> Result<Turn, AllocError>
    requires searchable { IsSearchable (table_of searched.costs.now) searched.system.now searched.shapes.now searched.spans.now }
    requires facts { searched.system.now.claims.facts ≢ [] }
    requires ops { ops.now ≡ ops_of searched.system.now.claims.facts }
    requires going { IsGoing (table_of searched.costs.now) searched.system.now searched.shapes.now searched.spans.now state }
    ensures { IfOk result (IsTurn (table_of searched.entry.costs.now) searched.entry.system.now searched.entry.shapes.now searched.entry.spans.now state) }
{
    let round = ended(alloc, &state.columns, ops, state.made)?;
    let made = round.made;
    match next_step(
        alloc,
        searched,
        &state.columns,
        ops,
        &state.asked,
        round.ending,
    )? {
        Step::Wide(other) => {
            let cert = least_of(state.least, other);
            Ok(Turn::Ends(found(cert, Kind::Wide { pivot: made }, state.columns)))
        }
        Step::Spent => {
            let kind = spent(state.columns.len(), made);
            Ok(Turn::Ends(found(state.least, kind, state.columns)))
        }
        Step::Empty(cert) => Ok(Turn::Ends(found(cert, Kind::Empty, state.columns))),
        Step::Greatest(cert) => Ok(Turn::Ends(found(cert, Kind::Greatest, state.columns))),
        Step::Goes(answer) => with_another(state, answer, made),
    }
}

/// The search under restrictions, from the greatest flow without them.
pub(crate) fn search(
    alloc: Global,
    searched: Searched,
    first: Answered,
    tried: Vec<Multipliers>,
) -> Result<Bounded, AllocError>
    requires searchable { IsSearchable (table_of searched.costs.now) searched.system.now searched.shapes.now searched.spans.now }
    requires facts { searched.system.now.claims.facts ≢ [] }
    requires first { IsBegun (table_of searched.costs.now) searched.system.now searched.shapes.now searched.spans.now first }
    requires tried { All (λ y. IfSome first.cert (λ c. IsNoLess (table_of searched.costs.now) searched.system.now searched.shapes.now searched.spans.now c y)) tried.items }
    ensures { IfOk result (IsEnded (table_of searched.entry.costs.now) searched.entry.system.now searched.entry.shapes.now searched.entry.spans.now) }
{
    let ops = ops_of(alloc, searched.system)?;
    let mut state = begun(alloc, first, tried)?;
    'rounds: loop {
        match turned(alloc, searched, &ops, state)? {
            Turn::Ends(bounded) => return Ok(bounded),
            Turn::Goes(next) => state = next,
        }
    }
}
