// The search.
ghost use Rattle.std.specs.Prelude.{◌≡◌, ◌^◌, ◌≤ℤ◌, ◌<ℤ◌, pos, true, false, [], IfOk, All};
ghost use Rattle.rv_core.specs.Table.{table_of};
ghost use Rattle.code_flow_system.specs.Certificates.{Accepts, IsInForm};
ghost use Rattle.path_places.specs.Reached.{AreReached};
ghost use Rattle.path_ranges.specs.Narrow.{HasShortBounds};
ghost use Rattle.path_cert.specs.Certificates.{certificate_of};
ghost use Rattle.path_cert.specs.BoundLaws.{IsBoundable};
ghost use Rattle.path_conditions.specs.Bounding.{CanBound};
ghost use Rattle.path_search.specs.Kinds.{IsMarked};
ghost use Rattle.path_search.specs.Unmarked.{no_flow, one_flow};

use crate::marking::{kind_of, marked};
use crate::unmarked::unmarked_cert;
use code_flow_answer::Bounded;
use code_flow_lookup::potential;
use code_flow_system::{Cert, Flow, LoopClaim, LoopShape, Mark, Part, Span, System};
use path_flow_counts::{Costed, cost_flow};
use path_values::settle_costs;
use rv_core::Costs;
use std::alloc::{AllocError, Global};
use wcc_base::{Items, Memory};

/// What a block is worth: loose flows cost less than a quarter of it.
const BLOCK: i128 = -(1 << 62);

/// Whether there is no flow, by the worth of the entry.
fn is_negative(worth: i128) -> bool
    ensures negative { result ≡ true → worth <ℤ pos 0 }
    ensures other { result ≡ false → pos 0 ≤ℤ worth }
{
    worth < 0
}

fn no_flow(alloc: Global) -> Flow
    ensures { result ≡ no_flow }
{
    Flow {
        unit: 0,
        parts: Items::new(Vec::new(alloc)),
    }
}

/// A flow of one unit.
fn one_flow(parts: Vec<Part>) -> Flow
    ensures { result ≡ one_flow parts.items }
{
    Flow {
        unit: 1,
        parts: Items::new(parts),
    }
}

/// A worth that isn't negative, as cycles.
fn cycles(worth: i128) -> u64
    requires positive { pos 0 ≤ℤ worth }
    requires small { worth <ℤ pos (2 ^ 60) }
    ensures { worth ≡ pos result }
{
    worth as u64
}

/// The certificate of the walks, marked, with a flow of its value if there is one.
fn certificate(
    alloc: Global,
    system: &System,
    shapes: &[LoopShape],
    spans: &[Span],
    costs: &Costs,
) -> Result<Cert, AllocError>
    requires { IsBoundable (table_of costs.now) system.now shapes.now spans.now }
    ensures { IfOk result (λ c. c ≡ certificate_of (table_of costs.now) system.now shapes.now spans.now) }
{
    let settled = settle_costs(alloc, system, costs, shapes, spans, BLOCK)?;
    let cert = unmarked_cert(alloc, system, costs, &settled)?;
    let worth = potential(cert.potentials.as_slice(), system.entry());
    if is_negative(worth) {
        return Ok(marked(cert, Mark::Empty, 0, no_flow(alloc)));
    }
    let costed = Costed {
        system,
        shapes,
        costs,
        low: BLOCK,
    };
    let parts = cost_flow(alloc, costed, spans, &settled)?;
    Ok(marked(cert, Mark::Greatest, cycles(worth), one_flow(parts)))
}

/// A law: bounds are read from 32 bits.
fn is_short(claim: LoopClaim)
    ensures { HasShortBounds claim }
{}

/// The same of each loop.
fn are_short(loops: &[LoopClaim])
    ensures { All HasShortBounds loops.now }
{
    for i in 0..loops.len() {
        is_short(loops[i]);
    }
}

/// A law: where a search can be made, its numbers keep to what `path_cert` asks.
pub fn is_boundable(system: &System, shapes: &[LoopShape], spans: &[Span], costs: &Costs)
    requires reached { AreReached system.now }
    requires can { CanBound (table_of costs.now) system.now shapes.now spans.now }
    ensures { IsBoundable (table_of costs.now) system.now shapes.now spans.now }
{
    system.is_system();
    are_short(system.claims().loops());
}

/// The bound of a system without restrictions: its certificate, and whether it is the greatest value of a flow or there is
/// no flow.
///
/// The conditions: all moves are reached, as those of a system that is found are (`path_places::systems_are_reached`), and
/// the search can be made, which `can_bound` tests.
pub fn bound(
    alloc: Global,
    system: &System,
    shapes: &[LoopShape],
    spans: &[Span],
    costs: &Costs,
) -> Result<Bounded, Memory>
    requires reached { AreReached system.now }
    requires can { CanBound (table_of costs.now) system.now shapes.now spans.now }
    ensures form { IfOk result (λ b. IsInForm system.now.claims b.cert) }
    ensures accepted { IfOk result (λ b. Accepts (table_of costs.now) system.now b.cert) }
    ensures kind { IfOk result (λ b. IsMarked b.kind b.cert.mark) }
    ensures columns { IfOk result (λ b. b.columns ≡ []) }
{
    is_boundable(system, shapes, spans, costs);
    let cert = certificate(alloc, system, shapes, spans, costs)?;
    let kind = kind_of(cert.mark);
    Ok(Bounded {
        cert,
        kind,
        columns: Items::new(Vec::new(alloc)),
    })
}
