// The search.
ghost use Rattle.std.specs.Prelude.{◌≡◌, ◌≢◌, [], IfOk};
ghost use Rattle.rv_core.specs.Table.{table_of};
ghost use Rattle.path_places.specs.Reached.{AreReached};
ghost use Rattle.path_conditions.specs.Searching.{CanSearch};
ghost use Rattle.path_fact_kinds.specs.Kinds.{IsFound};
ghost use Rattle.path_conditions.specs.Walking.{IsSearchable};
ghost use Rattle.path_enum.specs.Marks.{answered, found, none};
ghost use Rattle.path_enum.specs.Steps.{IsBegun};
ghost use Rattle.path_enum.specs.Guessing.{AreGuesses};
ghost use Rattle.path_enum.specs.Least.{IsEnded, IsLeast};

use crate::asking::{Answered, Asked, Searched, ask};
use crate::guessing::{Guesses, Walked, first_guesses, guessed};
use crate::searching::{ops_of, search};
use code_flow_answer::{Bounded, Column, Kind};
use code_flow_system::{Cert, LoopShape, Span, System};
use path_fact_fit::is_searchable;
use rv_core::Costs;
use simplex_rounds::Multipliers;
use std::alloc::{AllocError, Global};
use wcc_base::{Items, Memory};

/// No multiplier of a fact.
fn none(alloc: Global, count: usize) -> Result<Multipliers, AllocError>
    ensures { IfOk result (λ y. y ≡ none count) }
{
    let facts = vec![in alloc; 0; count]?;
    Ok(Multipliers {
        scale: 1,
        facts: Items::new(facts),
    })
}

/// A bound without columns.
fn alone(alloc: Global, cert: Cert, kind: Kind) -> Bounded
    ensures { result ≡ found cert kind [] }
{
    Bounded {
        cert,
        kind,
        columns: Items::new(Vec::new(alloc)),
    }
}

/// The first search, with the least bound of the second one.
fn finished(
    alloc: Global,
    searched: Searched,
    column: Column,
    multipliers: Multipliers,
    guesses: Guesses,
) -> Result<Bounded, Memory>
    requires searchable { IsSearchable (table_of searched.costs.now) searched.system.now searched.shapes.now searched.spans.now }
    requires facts { searched.system.now.claims.facts ≢ [] }
    requires begun { IsBegun (table_of searched.costs.now) searched.system.now searched.shapes.now searched.spans.now (answered guesses.least column multipliers) }
    requires guesses { AreGuesses (table_of searched.costs.now) searched.system.now searched.shapes.now searched.spans.now guesses }
    ensures { IfOk result (IsEnded (table_of searched.entry.costs.now) searched.entry.system.now searched.entry.shapes.now searched.entry.spans.now) }
{
    let Guesses { asked, least } = guesses;
    let first = Answered {
        cert: Some(least),
        worth: 0,
        column,
        multipliers,
    };
    let bounded = search(alloc, searched, first, asked)?;
    Ok(bounded)
}

/// Both searches, from the greatest flow without facts: the second one first, since it is the faster one. Where it doesn't end, the
/// first one goes on with its least bound.
fn both(alloc: Global, searched: Searched, first: Answered) -> Result<Bounded, Memory>
    requires searchable { IsSearchable (table_of searched.costs.now) searched.system.now searched.shapes.now searched.spans.now }
    requires facts { searched.system.now.claims.facts ≢ [] }
    requires first { IsBegun (table_of searched.costs.now) searched.system.now searched.shapes.now searched.spans.now first }
    ensures { IfOk result (IsEnded (table_of searched.entry.costs.now) searched.entry.system.now searched.entry.shapes.now searched.entry.spans.now) }
{
    let ops = ops_of(alloc, searched.system)?;
    let Answered {
        cert,
        worth: _,
        column,
        multipliers,
    } = first;
    let guesses = first_guesses(alloc, &multipliers, cert.unwrap())?;
    match guessed(alloc, searched, &ops, &column, guesses)? {
        Walked::Empty(cert) => Ok(alone(alloc, cert, Kind::Empty)),
        Walked::Greatest(cert) => Ok(alone(alloc, cert, Kind::Greatest)),
        Walked::Goes(last) => finished(alloc, searched, column, multipliers, last),
        Walked::Stays(last) => finished(alloc, searched, column, multipliers, last),
    }
}

/// The bound of a system: its certificate, and whether it is the greatest value of a flow, there is no flow, or it is a bound
/// alone, the least of those that either search made.
///
/// The conditions: all moves are reached, as those of a system that is found are (`path_places::systems_are_reached`), and
/// loops, costs and restrictions are within the limits of a search.
pub fn bound(
    alloc: Global,
    system: &System,
    shapes: &[LoopShape],
    spans: &[Span],
    costs: &Costs,
) -> Result<Bounded, Memory>
    requires reached { AreReached system.now }
    requires can { CanSearch (table_of costs.now) system.now shapes.now spans.now }
    ensures found { IfOk result (IsFound (table_of costs.now) system.now) }
    ensures least { IfOk result (IsLeast (table_of costs.now) system.now shapes.now spans.now) }
{
    is_searchable(system, shapes, spans, costs);
    let facts = system.claims().facts().len();
    if facts == 0 {
        return path_search::bound(alloc, system, shapes, spans, costs);
    }
    let searched = Searched {
        system,
        shapes,
        spans,
        costs,
    };
    let multipliers = none(alloc, facts)?;
    match ask(alloc, searched, multipliers)? {
        Asked::NoFlow(cert) => Ok(alone(alloc, cert, Kind::Empty)),
        Asked::Found(first) => both(alloc, searched, first),
    }
}
