// What a search rests on.
ghost use Rattle.std.specs.Prelude.{All};
ghost use Rattle.rv_core.specs.Table.{table_of};
ghost use Rattle.path_places.specs.Reached.{AreReached};
ghost use Rattle.path_ranges.specs.Narrow.{HasShortBounds};
ghost use Rattle.path_conditions.specs.Searching.{CanSearch};
ghost use Rattle.path_conditions.specs.Walking.{IsSearchable};

use code_flow_system::{LoopClaim, LoopShape, Span, System};
use rv_core::Costs;

/// A law: bounds are read from 32 bits.
fn is_short(claim: LoopClaim)
    ensures { HasShortBounds claim }
{}

/// The same of each loop.
fn are_short(loops: &[LoopClaim])
    ensures { All HasShortBounds loops.now }
{
    for i in 0..loops.len() {
        is_short(loops[i]);
    }
}

/// A law: where a search can be made, its numbers keep to what the walks ask.
pub fn is_searchable(system: &System, shapes: &[LoopShape], spans: &[Span], costs: &Costs)
    requires reached { AreReached system.now }
    requires can { CanSearch (table_of costs.now) system.now shapes.now spans.now }
    ensures { IsSearchable (table_of costs.now) system.now shapes.now spans.now }
{
    system.is_system();
    are_short(system.claims().loops());
}
