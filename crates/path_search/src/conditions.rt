// Whether a search can be made.
ghost use Rattle.std.specs.Prelude.{◌≡◌, ◌↔◌, true, IfOk, All};
ghost use Rattle.rv_core.specs.Table.{table_of};
ghost use Rattle.code_flow_system.specs.Shapes.{Fits};
ghost use Rattle.path_places.specs.Reached.{AreReached};
ghost use Rattle.path_flows.specs.CountLaws.{HasBounds};
ghost use Rattle.path_conditions.specs.Bounding.{CanBound};
ghost use Rattle.path_search.specs.Conditions.{SharedHeadersNeverTurn};

use code_flow_system::{LoopClaim, LoopShape, Span, System};
use path_fit::loops_fit;
use path_loose_fit::{counts_fit, values_fit};
use rv_core::Costs;
use std::alloc::Global;
use wcc_base::Memory;

fn has_bounds(claim: LoopClaim) -> bool
    ensures { (result ≡ true) ↔ HasBounds claim }
{
    claim.min <= claim.max || claim.max == 0
}

/// Whether no loop has to turn more often than it may.
fn have_bounds(loops: &[LoopClaim]) -> bool
    ensures { (result ≡ true) ↔ All HasBounds loops.now }
{
    for i in 0..loops.len() {
        if !has_bounds(loops[i]) {
            return false;
        }
    }
    true
}

/// Whether a search can be made: whether loops and functions fit the system, and are such that `bound` can go by them. A
/// yes is right. Where all else holds, a no says that the sum of all code in place of its longest path comes to 2^60
/// cycles, or to 2^49 moves.
pub fn can_bound(
    alloc: Global,
    system: &System,
    shapes: &[LoopShape],
    spans: &[Span],
    costs: &Costs,
) -> Result<bool, Memory>
    ensures { IfOk result (λ can. can ≡ true → CanBound (table_of costs.now) system.now shapes.now spans.now) }
{
    if !loops_fit(system, shapes, spans) {
        return Ok(false);
    }
    if !system.claims().facts().is_empty() {
        return Ok(false);
    }
    if !have_bounds(system.claims().loops()) {
        return Ok(false);
    }
    if !values_fit(alloc, system, costs, spans)? {
        return Ok(false);
    }
    counts_fit(alloc, system, spans)
}

/// A law: a loop whose header is the jump back of another one can't turn, since its own jump back is never reached. So no
/// loop of a system is lost where `loops_fit` lets no such shapes pass.
pub fn shared_headers_never_turn(system: &System, shapes: &[LoopShape], spans: &[Span])
    requires fits { Fits system.now shapes.now spans.now }
    requires reached { AreReached system.now }
    ensures { SharedHeadersNeverTurn system.now shapes.now }
{}
