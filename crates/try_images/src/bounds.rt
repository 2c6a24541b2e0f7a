// The bound of a program that is laid.
ghost use Rattle.code_flow_system.specs.Systems.{IsSystemOf};
ghost use Rattle.path_places.specs.Reached.{AreReached};
ghost use Rattle.path_conditions.specs.Bounding.{CanBound};
ghost use Rattle.rv_core.specs.Table.{table_of};

use code_flow::system;
use code_flow_answer::Kind;
use code_flow_system::{Claims, LoopShape, Span, System};
use layout_program::Laid;
use path_places::systems_are_reached;
use path_search::{bound, can_bound};
use rv_core::{Costs, Image, default_costs};
use std::alloc::Global;
use wcc_base::Memory;

/// What the search finds for a system that the walks fit.
fn found(
    alloc: Global,
    system: &System,
    shapes: &[LoopShape],
    spans: &[Span],
    costs: &Costs,
) -> Result<Option<u64>, Memory>
    requires reached { AreReached system.now }
    requires can { CanBound (table_of costs.now) system.now shapes.now spans.now }
{
    let bounded = bound(alloc, system, shapes, spans, costs)?;
    let (kind, cycles) = (bounded.kind, bounded.cert.cycles);
    drop(bounded);
    match kind {
        Kind::Greatest => Ok(Some(cycles)),
        _ => Ok(None),
    }
}

/// The same with the default costs, where the search can be made.
fn searched(
    alloc: Global,
    system: &System,
    shapes: &[LoopShape],
    spans: &[Span],
) -> Result<Option<u64>, Memory>
    requires { AreReached system.now }
{
    let costs = default_costs();
    if can_bound(alloc, system, shapes, spans, &costs)? {
        return found(alloc, system, shapes, spans, &costs);
    }
    Ok(None)
}

// A law of a system that is found.
fn found_is_reached(image: &Image, claims: &Claims, system: &System)
    requires { IsSystemOf image.now claims.now system.now }
    ensures { AreReached system.now }
{
    systems_are_reached(image, system);
}

/// The greatest value of a flow of a program that is laid, with the default costs, where the search can be made and there
/// is a flow.
pub fn greatest(alloc: Global, laid: &Laid) -> Result<Option<u64>, Memory> {
    let claims = &laid.claimed.claims;
    match system(alloc, &laid.image, claims) {
        Ok(system) => {
            found_is_reached(&laid.image, claims, &system);
            let greatest = searched(alloc, &system, &laid.claimed.shapes, &laid.lists.spans);
            drop(system);
            greatest
        }
        Err(_) => Ok(None),
    }
}
