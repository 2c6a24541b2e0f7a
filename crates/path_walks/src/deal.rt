// The multipliers of all loops.
ghost use Rattle.std.specs.Prelude.{◌≡◌, ◌<◌, ◌+◌, length, slice_set, slice_index_or, if◌then◌else◌};
ghost use Rattle.code_flow_system.specs.Systems.{AreAscending};
ghost use Rattle.path_places.specs.Duals.{dealt};
ghost use Rattle.path_walks.specs.Opens.{AddressesRise};
ghost use Rattle.path_walks.specs.Deals.{no_pair, takes};

use crate::place::loops_before;
use code_flow_lookup::has_moves;
use code_flow_system::{LoopShape, Move, Span};
use loop_walks::Pair;

/// Gives a loop the next multipliers, if there are any and its header is reached, and says how many are used then.
fn deal_one(
    moves: &[Move],
    shape: LoopShape,
    place: usize,
    pairs: &mut [Pair],
    found: &[Pair],
    used: usize,
) -> usize
    requires moves { AreAscending moves.now }
    requires place { place < length pairs.now }
    ensures pairs { pairs.new ≡ if takes moves.now used found.now shape then slice_set pairs.old place (slice_index_or found.now used no_pair) else pairs.old }
    ensures used { result ≡ if takes moves.now used found.now shape then used + 1 else used }
{
    if used < found.len() && has_moves(moves, shape.header) {
        pairs[place] = found[used];
        return used + 1;
    }
    used
}

/// Puts the multipliers of a function's loops each at its own loop.
pub(crate) fn deal(
    moves: &[Move],
    span: Span,
    shapes: &[LoopShape],
    pairs: &mut [Pair],
    found: &[Pair],
)
    requires moves { AreAscending moves.now }
    requires headers { AddressesRise (λ l. l.header) shapes.now }
    requires long { length pairs.now ≡ length shapes.now }
    ensures { pairs.new ≡ dealt moves.now span shapes.now pairs.old found.now }
{
    let first = loops_before(shapes, span.first);
    let end = loops_before(shapes, span.end);
    let mut used = 0;
    for i in first..end {
        used = deal_one(moves, shapes[i], i, pairs, found, used);
    }
}
