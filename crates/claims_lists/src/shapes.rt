// How loops and functions lie in memory.
ghost use Rattle.std.specs.Prelude.{◌≡◌, ◌++◌, ◌∷◌, [], suc, length, map, IfOk, OnOk};
ghost use Rattle.asm_graphs.specs.Laid.{spans_from};
ghost use Rattle.claims_definition.specs.Listed.{Laid, placing};
ghost use Rattle.claims_definition.specs.Shapes.{AreShaped};
ghost use Rattle.claims_lists.specs.Lists.{IsOf};
ghost use Rattle.claims_lists.specs.Places.{IsRoomy};
ghost use Rattle.claims_lists.specs.Spans.{shape_in, span_in, spans_in};

use super::laying::{Laying, end_of, start_at, starts_of};
use asm_forms::Layout;
use code_flow_system::{LoopClaim, LoopShape, Span};
use std::alloc::Global;
use wcc_base::Memory;

fn shape_of(claim: LoopClaim) -> LoopShape
    ensures { result ≡ shape_in claim }
{
    LoopShape {
        header: claim.header,
        back: claim.back,
        parent: None,
        first: claim.header,
        last: claim.back,
    }
}

fn shapes_in(alloc: Global, claims: &[LoopClaim]) -> Result<Vec<LoopShape>, Memory>
    ensures { IfOk result (λ shapes. shapes.items ≡ map shape_in claims.now) }
{
    let mut shapes = Vec::new(alloc);
    for claim in claims {
        shapes.push(shape_of(*claim))?;
    }
    Ok(shapes)
}

/// The shapes of loops, from the header to the jump back, without the loops around them.
pub fn shapes_of(alloc: Global, claims: &[LoopClaim]) -> Result<Vec<LoopShape>, Memory>
    ensures { IfOk result (λ shapes. AreShaped claims.now shapes.items) }
{
    let shapes = shapes_in(alloc, claims)?;
    Ok(shapes)
}

fn span_of(layout: &Layout, function: usize) -> Span
    requires { IsRoomy layout.now }
    ensures { result ≡ span_in layout.now function }
{
    Span {
        first: start_at(starts_of(layout, function), 0),
        end: end_of(layout, function),
    }
}

fn put_span(spans: &mut Vec<Span>, layout: &Layout, function: usize) -> Result<(), Memory>
    requires { IsRoomy layout.now }
    ensures { OnOk result (spans.new.items ≡ spans.old.items ++ span_in layout.now function ∷ []) }
{
    spans.push(span_of(layout, function))?;
    Ok(())
}

fn spans_in(alloc: Global, layout: &Layout) -> Result<Vec<Span>, Memory>
    requires { IsRoomy layout.now }
    ensures { IfOk result (λ spans. spans.items ≡ spans_in layout.now (length layout.now.functions.items)) }
{
    let mut spans = Vec::new(alloc);
    for function in 0..layout.functions.len() {
        put_span(&mut spans, layout, function)?;
    }
    Ok(spans)
}

/// The spans of functions, in the order of their numbers, that of the start code last.
pub fn spans(alloc: Global, laying: &Laying<'_>) -> Result<Vec<Span>, Memory>
    requires { IsRoomy laying.now.layout.now }
    ensures { IfOk result (λ spans. (l : Laid) → IsOf laying.now l → spans.items ≡ spans_from (placing l) 0 (suc (length l.program.functions))) }
{
    let spans = spans_in(alloc, laying.layout)?;
    Ok(spans)
}
