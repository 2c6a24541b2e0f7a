// The second search: multipliers by cutting planes, and the flow that the weights of their columns make.
ghost use Rattle.std.specs.Prelude.{◌≡◌, ◌⊎◌, ◌++◌, ◌∷◌, [], IfOk, IfSome, All};
ghost use Rattle.rv_core.specs.Table.{table_of};
ghost use Rattle.path_fact_kinds.specs.Columns.{ops_of};
ghost use Rattle.path_conditions.specs.Walking.{IsSearchable};
ghost use Rattle.path_fact_columns.specs.Adding.{AreAsked};
ghost use Rattle.path_guessed_flows.specs.Guesses.{IsGuessed};
ghost use Rattle.path_enum.specs.declared.guessing.Walked.TheVariants as walks;
ghost use Rattle.path_enum.specs.Marks.{least_of};
ghost use Rattle.path_enum.specs.Steps.{IsAnswered};
ghost use Rattle.path_enum.specs.Guessing.{AreGuesses, IsWalked};

use crate::asking::{Answered, Asked, Searched, ask};
use crate::marking::least_of;
use crate::stepping::loop_factor;
use code_flow_answer::Column;
use code_flow_system::Cert;
use path_cutting_planes::{MOST_COLUMNS, Master, begun, equations_of, multipliers, simplest};
use path_fact_columns::Found;
use path_guessed_flows::{Guessed, Outcome, solved_flow, tested};
use simplex_rounds::Multipliers;
use std::alloc::{AllocError, Global};
use wcc_base::{Compare, Items};

/// How near a multiplier is to the fraction that is tried for it.
const OFFS: [f64; 5] = [1e-8, 1e-6, 1e-5, 1e-4, 1e-3];

/// What the second search has so far.
#[derive(Drop)]
pub struct Guesses {
    /// The multipliers that were asked, first those of the columns.
    pub asked: Vec<Multipliers>,
    /// The least bound.
    pub least: Cert,
}

/// What guessed multipliers lead to.
#[derive(Drop)]
pub enum Walked {
    /// There is no flow.
    Empty(Cert),
    /// A flow has the value of the bound.
    Greatest(Cert),
    /// The search goes on.
    Goes(Guesses),
    /// Nothing more is to be tried.
    Stays(Guesses),
}

/// A guess of the greatest flow: the solution of a master program, and its weighted flow.
#[derive(Clone, Copy)]
pub struct Guess<'a> {
    pub master: &'a Master,
    pub ops: &'a [Compare],
    pub flow: &'a Guessed,
}

/// Multipliers once more.
fn copied(alloc: Global, multipliers: &Multipliers) -> Result<Multipliers, AllocError>
    ensures { IfOk result (λ y. y ≡ multipliers.now) }
{
    let facts = Vec::from_slice(alloc, multipliers.facts.as_slice())?;
    Ok(Multipliers {
        scale: multipliers.scale,
        facts: Items::new(facts),
    })
}

/// A search that has asked at the first multipliers.
pub(crate) fn first_guesses(
    alloc: Global,
    multipliers: &Multipliers,
    cert: Cert,
) -> Result<Guesses, AllocError>
    ensures asked { IfOk result (λ g. g.asked.items ≡ multipliers.now ∷ []) }
    ensures least { IfOk result (λ g. g.least ≡ cert) }
{
    let copied = copied(alloc, multipliers)?;
    let mut asked = Vec::new(alloc);
    asked.push(copied)?;
    Ok(Guesses { asked, least: cert })
}

/// A search with one more answer.
fn with_answer(
    guesses: Guesses,
    multipliers: Multipliers,
    cert: Option<Cert>,
) -> Result<Guesses, AllocError>
    ensures asked { IfOk result (λ g. g.asked.items ≡ guesses.asked.items ++ multipliers ∷ []) }
    ensures least { IfOk result (λ g. g.least ≡ least_of guesses.least cert) }
{
    let Guesses { mut asked, least } = guesses;
    asked.push(multipliers)?;
    Ok(Guesses {
        asked,
        least: least_of(least, cert),
    })
}

/// A search with one more answer, by its parts.
fn grown(guesses: Guesses, answer: Answered) -> Result<Guesses, AllocError>
    ensures asked { IfOk result (λ g. g.asked.items ≡ guesses.asked.items ++ answer.multipliers ∷ []) }
    ensures least { IfOk result (λ g. g.least ≡ least_of guesses.least answer.cert) }
{
    let Answered {
        cert,
        worth: _,
        column: _,
        multipliers,
    } = answer;
    with_answer(guesses, multipliers, cert)
}

/// Whether a search goes on with another answer.
fn goes_on(guesses: Guesses, more: bool) -> Walked
    ensures { (result ≡ walks.Goes guesses) ⊎ (result ≡ walks.Stays guesses) }
{
    if more {
        return Walked::Goes(guesses);
    }
    Walked::Stays(guesses)
}

/// One round of cutting planes: the walks at the multipliers of the master's solution.
fn one_round(
    alloc: Global,
    searched: Searched,
    ops: &[Compare],
    master: &mut Master,
    guesses: Guesses,
) -> Result<Walked, AllocError>
    requires searchable { IsSearchable (table_of searched.costs.now) searched.system.now searched.shapes.now searched.spans.now }
    requires ops { ops.now ≡ ops_of searched.system.now.claims.facts }
    requires guesses { AreGuesses (table_of searched.costs.now) searched.system.now searched.shapes.now searched.spans.now guesses }
    ensures { IfOk result (IsWalked (table_of searched.entry.costs.now) searched.entry.system.now searched.entry.shapes.now searched.entry.spans.now guesses.least.cycles) }
{
    master.solve();
    let guess = multipliers(alloc, master, ops, loop_factor(searched.system))?;
    match ask(alloc, searched, guess)? {
        Asked::NoFlow(cert) => {
            drop(guesses);
            Ok(Walked::Empty(cert))
        }
        Asked::Found(answer) => {
            let more = master.grows(alloc, &answer.column)?;
            let guesses = grown(guesses, answer)?;
            Ok(goes_on(guesses, more))
        }
    }
}

/// The rounds, until no column improves, or there is no room for another one.
fn rounds(
    alloc: Global,
    searched: Searched,
    ops: &[Compare],
    master: &mut Master,
    guesses: Guesses,
) -> Result<Walked, AllocError>
    requires searchable { IsSearchable (table_of searched.costs.now) searched.system.now searched.shapes.now searched.spans.now }
    requires ops { ops.now ≡ ops_of searched.system.now.claims.facts }
    requires guesses { AreGuesses (table_of searched.costs.now) searched.system.now searched.shapes.now searched.spans.now guesses }
    ensures { IfOk result (IsWalked (table_of searched.entry.costs.now) searched.entry.system.now searched.entry.shapes.now searched.entry.spans.now guesses.least.cycles) }
{
    let mut guesses = guesses;
    for _round in 1..MOST_COLUMNS {
        match one_round(alloc, searched, ops, master, guesses)? {
            Walked::Empty(cert) => return Ok(Walked::Empty(cert)),
            Walked::Greatest(cert) => return Ok(Walked::Greatest(cert)),
            Walked::Goes(next) => guesses = next,
            Walked::Stays(last) => return Ok(Walked::Stays(last)),
        }
    }
    Ok(Walked::Stays(guesses))
}

/// The flow of the columns, weighted as the solution weights them.
fn weighted(
    alloc: Global,
    searched: Searched,
    master: &Master,
    asked: &[Multipliers],
) -> Result<Option<Guessed>, AllocError>
    requires searchable { IsSearchable (table_of searched.costs.now) searched.system.now searched.shapes.now searched.spans.now }
    requires asked { All (AreAsked (table_of searched.costs.now) searched.system.now searched.shapes.now searched.spans.now) asked.now }
    ensures { IfOk result (λ o. IfSome o IsGuessed) }
{
    let Searched {
        system,
        shapes,
        spans,
        costs,
    } = searched;
    let equations = equations_of(alloc, master, asked.len())?;
    let found = Found {
        system,
        shapes,
        spans,
        costs,
        asked,
    };
    solved_flow(alloc, found, &equations.columns, &equations.rows)
}

/// Whether the guessed flow has the value that an answer bounds, and keeps all claims.
fn judged(
    alloc: Global,
    searched: Searched,
    guess: Guess,
    guesses: Guesses,
    answer: Answered,
) -> Result<Walked, AllocError>
    requires guesses { AreGuesses (table_of searched.costs.now) searched.system.now searched.shapes.now searched.spans.now guesses }
    requires answer { IsAnswered (table_of searched.costs.now) searched.system.now searched.shapes.now searched.spans.now answer.multipliers answer }
    requires asked { AreAsked (table_of searched.costs.now) searched.system.now searched.shapes.now searched.spans.now answer.multipliers }
    requires flow { IsGuessed guess.flow.now }
    ensures { IfOk result (IsWalked (table_of searched.entry.costs.now) searched.entry.system.now searched.entry.shapes.now searched.entry.spans.now guesses.least.cycles) }
{
    let Answered {
        cert,
        worth: _,
        column: _,
        multipliers,
    } = answer;
    match cert {
        None => {
            let guesses = with_answer(guesses, multipliers, None)?;
            Ok(Walked::Goes(guesses))
        }
        Some(cert) => {
            let parts = Vec::from_slice(alloc, &guess.flow.parts)?;
            let outcome = tested(
                alloc,
                searched.system,
                searched.costs,
                cert,
                guess.flow.unit,
                parts,
            );
            match outcome {
                Outcome::Greatest(cert) => {
                    drop(guesses);
                    drop(multipliers);
                    Ok(Walked::Greatest(cert))
                }
                Outcome::Bound(cert) => {
                    let guesses = with_answer(guesses, multipliers, Some(cert))?;
                    Ok(Walked::Goes(guesses))
                }
            }
        }
    }
}

/// Tries the guessed flow with the bound at the simplest multipliers that are so near.
fn tried(
    alloc: Global,
    searched: Searched,
    guess: Guess,
    guesses: Guesses,
    off: f64,
) -> Result<Walked, AllocError>
    requires searchable { IsSearchable (table_of searched.costs.now) searched.system.now searched.shapes.now searched.spans.now }
    requires ops { guess.ops.now ≡ ops_of searched.system.now.claims.facts }
    requires guesses { AreGuesses (table_of searched.costs.now) searched.system.now searched.shapes.now searched.spans.now guesses }
    requires flow { IsGuessed guess.flow.now }
    ensures { IfOk result (IsWalked (table_of searched.entry.costs.now) searched.entry.system.now searched.entry.shapes.now searched.entry.spans.now guesses.least.cycles) }
{
    let times = loop_factor(searched.system);
    let Some(multipliers) = simplest(alloc, guess.master, guess.ops, times, off)? else {
        return Ok(Walked::Goes(guesses));
    };
    match ask(alloc, searched, multipliers)? {
        Asked::NoFlow(cert) => {
            drop(guesses);
            Ok(Walked::Empty(cert))
        }
        Asked::Found(answer) => judged(alloc, searched, guess, guesses, answer),
    }
}

/// Tries it with simpler and simpler multipliers.
fn tries(
    alloc: Global,
    searched: Searched,
    guess: Guess,
    guesses: Guesses,
) -> Result<Walked, AllocError>
    requires searchable { IsSearchable (table_of searched.costs.now) searched.system.now searched.shapes.now searched.spans.now }
    requires ops { guess.ops.now ≡ ops_of searched.system.now.claims.facts }
    requires guesses { AreGuesses (table_of searched.costs.now) searched.system.now searched.shapes.now searched.spans.now guesses }
    requires flow { IsGuessed guess.flow.now }
    ensures { IfOk result (IsWalked (table_of searched.entry.costs.now) searched.entry.system.now searched.entry.shapes.now searched.entry.spans.now guesses.least.cycles) }
{
    let mut guesses = guesses;
    for off in OFFS {
        match tried(alloc, searched, guess, guesses, off)? {
            Walked::Empty(cert) => return Ok(Walked::Empty(cert)),
            Walked::Greatest(cert) => return Ok(Walked::Greatest(cert)),
            Walked::Goes(next) => guesses = next,
            Walked::Stays(last) => return Ok(Walked::Stays(last)),
        }
    }
    Ok(Walked::Stays(guesses))
}

/// Tries the flow that the solution weights.
fn ended(
    alloc: Global,
    searched: Searched,
    ops: &[Compare],
    master: &Master,
    guesses: Guesses,
) -> Result<Walked, AllocError>
    requires searchable { IsSearchable (table_of searched.costs.now) searched.system.now searched.shapes.now searched.spans.now }
    requires ops { ops.now ≡ ops_of searched.system.now.claims.facts }
    requires guesses { AreGuesses (table_of searched.costs.now) searched.system.now searched.shapes.now searched.spans.now guesses }
    ensures { IfOk result (IsWalked (table_of searched.entry.costs.now) searched.entry.system.now searched.entry.shapes.now searched.entry.spans.now guesses.least.cycles) }
{
    let Some(flow) = weighted(alloc, searched, master, &guesses.asked)? else {
        return Ok(Walked::Stays(guesses));
    };
    let guess = Guess {
        master,
        ops,
        flow: &flow,
    };
    tries(alloc, searched, guess, guesses)
}

/// The second search, from the column of the greatest flow without facts.
pub(crate) fn guessed(
    alloc: Global,
    searched: Searched,
    ops: &[Compare],
    column: &Column,
    guesses: Guesses,
) -> Result<Walked, AllocError>
    requires searchable { IsSearchable (table_of searched.costs.now) searched.system.now searched.shapes.now searched.spans.now }
    requires ops { ops.now ≡ ops_of searched.system.now.claims.facts }
    requires guesses { AreGuesses (table_of searched.costs.now) searched.system.now searched.shapes.now searched.spans.now guesses }
    ensures { IfOk result (IsWalked (table_of searched.entry.costs.now) searched.entry.system.now searched.entry.shapes.now searched.entry.spans.now guesses.least.cycles) }
{
    let mut master = begun(alloc, ops, column)?;
    match rounds(alloc, searched, ops, &mut master, guesses)? {
        Walked::Empty(cert) => Ok(Walked::Empty(cert)),
        Walked::Greatest(cert) => Ok(Walked::Greatest(cert)),
        Walked::Goes(last) => ended(alloc, searched, ops, &master, last),
        Walked::Stays(last) => ended(alloc, searched, ops, &master, last),
    }
}
