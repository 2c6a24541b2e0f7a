// The loops of a function.
ghost use Rattle.std.specs.Prelude.{◌≡◌, ◌<◌, ◌++◌, ◌∷◌, [], length, IfOk, OnOk, if◌then◌else◌};
ghost use Rattle.std.specs.List.Sorted.{IsNonDecreasingBy};
ghost use Rattle.code_flow_system.specs.Systems.{AreAscending, has_moves};
ghost use Rattle.code_flow_system.specs.Shapes.{AreShapesOf};
ghost use Rattle.loop_walks.specs.Walks.{larger};
ghost use Rattle.path_places.specs.Places.{back_place, dearest_from, end_place, loop_of, loops_of};
ghost use Rattle.path_walks.specs.Prices.{price_in, greatest};

use crate::open::is_stop;
use crate::place::{before, loops_before, place_behind, place_of};
use crate::priced::Priced;
use code_flow_lookup::has_moves;
use code_flow_system::{LoopClaim, LoopShape, Move, Span, System};
use loop_walks::{Loop, Step};
use std::alloc::{AllocError, Global};

fn larger(a: i128, b: i128) -> i128
    ensures { result ≡ larger a b }
{
    if a <= b { b } else { a }
}

/// The greatest of prices, or another number.
fn greatest(low: i128, prices: &[i128]) -> i128
    ensures { result ≡ greatest low prices.now }
{
    let mut best = low;
    for k in 0..prices.len() {
        best = larger(prices[prices.len() - 1 - k], best);
    }
    best
}

/// The greatest price of the moves of an address, or another number.
fn dearest(moves: &[Move], prices: &[i128], at: u32, low: i128) -> i128
    requires ascending { AreAscending moves.now }
    requires prices { length prices.now ≡ length moves.now }
    ensures { result ≡ dearest_from (price_in moves.now prices.now) moves.now at low }
{
    let first = place_of(moves, at);
    let end = place_behind(moves, at);
    greatest(low, &prices[first..end])
}

/// The place of a jump back that is reached and may be visited.
fn back_place(system: &System, at: u32) -> Option<usize>
    ensures { result ≡ back_place system.now.moves system.now.claims at }
{
    let moves = system.moves();
    if has_moves(moves, at) && !is_stop(system.claims(), at) {
        return Some(place_of(moves, at));
    }
    None
}

/// The place behind the range of a loop in its function.
fn end_place(moves: &[Move], shape: LoopShape, span: Span) -> usize
    requires { AreAscending moves.now }
    ensures { result ≡ end_place moves.now shape span }
{
    place_behind(moves, shape.last).min(place_of(moves, span.end))
}

/// A loop over places, and over the steps of its function.
fn loop_of(priced: Priced, span: Span, steps: &[Step], claim: LoopClaim, shape: LoopShape) -> Loop
    requires prices { length priced.prices.now ≡ length priced.system.now.moves }
    requires steps { IsNonDecreasingBy (λ m. m.at) steps.now }
    ensures { result ≡ loop_of (price_in priced.entry.system.now.moves priced.entry.prices.now) priced.entry.low priced.entry.system.now.moves priced.entry.system.now.claims span steps.now claim shape }
{
    let moves = priced.system.moves();
    let header = place_of(moves, shape.header);
    let end = end_place(moves, shape, span);
    Loop {
        header,
        end,
        back: back_place(priced.system, shape.back),
        price: dearest(moves, priced.prices, shape.back, priced.low),
        head: before(header, steps),
        body: before(header + 1, steps),
        rest: before(end, steps),
        min: claim.min,
        max: claim.max,
    }
}

/// Adds a loop, if its header is reached.
fn add_loop(
    loops: &mut Vec<Loop>,
    priced: Priced,
    span: Span,
    steps: &[Step],
    claim: LoopClaim,
    shape: LoopShape,
) -> Result<(), AllocError>
    requires prices { length priced.prices.now ≡ length priced.system.now.moves }
    requires steps { IsNonDecreasingBy (λ m. m.at) steps.now }
    ensures { OnOk result (loops.new.items ≡ loops.old.items ++ (if has_moves priced.entry.system.now.moves shape.header then loop_of (price_in priced.entry.system.now.moves priced.entry.prices.now) priced.entry.low priced.entry.system.now.moves priced.entry.system.now.claims span steps.now claim shape ∷ [] else [])) }
{
    if has_moves(priced.system.moves(), shape.header) {
        loops.push(loop_of(priced, span, steps, claim, shape))?;
    }
    Ok(())
}

/// The loops of a function over its steps.
pub fn loops(
    alloc: Global,
    priced: Priced,
    span: Span,
    steps: &[Step],
) -> Result<Vec<Loop>, AllocError>
    requires shapes { AreShapesOf priced.system.now.claims.loops priced.shapes.now }
    requires prices { length priced.prices.now ≡ length priced.system.now.moves }
    requires steps { IsNonDecreasingBy (λ m. m.at) steps.now }
    ensures { IfOk result (λ v. v.items ≡ loops_of (price_in priced.entry.system.now.moves priced.entry.prices.now) priced.entry.low priced.entry.system.now.moves priced.entry.system.now.claims span steps.now priced.entry.system.now.claims.loops priced.entry.shapes.now) }
{
    let _moves = priced.system.moves();
    let claims = priced.system.claims().loops();
    let first = loops_before(priced.shapes, span.first);
    let end = loops_before(priced.shapes, span.end);
    let mut loops = Vec::new(alloc);
    for i in first..end {
        add_loop(&mut loops, priced, span, steps, claims[i], priced.shapes[i])?;
    }
    Ok(loops)
}
