// Loops of a system.
ghost use Rattle.std.specs.Prelude.{◌≡◌, ◌↔◌, ◌<◌, ◌&&◌, ◌==◌, true, [], ◌∷◌, length, All, filter};
ghost use Rattle.std.specs.List.{Any};
ghost use Rattle.std.specs.List.Sorted.{IsNonDecreasingBy};
ghost use Rattle.std.specs.Option.{option_to_list};
ghost use Rattle.code_flow_system.specs.Moves.{destinations};
ghost use Rattle.code_flow_system.specs.Shapes.{AreShapesOf, IsInLoop, IsLoop, EntersAtHeader, onward, GoesUp};
ghost use Rattle.path_fit.specs.Loops.{lies_in, HoldsEnds, goes_alone, arrives_in, EntersBy, IsBackOf, GoesBackTo, HeadersAscend, HeadsOwnLoop, ShapesFit};

use crate::nest::nest;
use code_flow_lookup::moves_at;
use code_flow_system::{Arrival, LoopClaim, LoopShape, Move, System};

fn is_shape_of(claim: LoopClaim, shape: LoopShape) -> bool
    ensures { result ≡ (shape.header == claim.header) && (shape.back == claim.back) }
{
    shape.header == claim.header && shape.back == claim.back
}

/// Whether there is one shape for each claim, in order.
fn are_shapes_of(claims: &[LoopClaim], shapes: &[LoopShape]) -> bool
    ensures { (result ≡ true) ↔ AreShapesOf claims.now shapes.now }
{
    if claims.len() != shapes.len() {
        return false;
    }
    for i in 0..claims.len() {
        if !is_shape_of(claims[i], shapes[i]) {
            return false;
        }
    }
    true
}

/// Whether an address lies in the range of a loop.
fn lies_in(shape: LoopShape, at: u32) -> bool
    ensures { result ≡ lies_in shape at }
{
    shape.first <= at && at <= shape.last
}

fn holds_ends(shape: LoopShape) -> bool
    ensures { (result ≡ true) ↔ HoldsEnds shape }
{
    lies_in(shape, shape.header) && lies_in(shape, shape.back)
}

/// Whether each range holds its header and its back jump.
fn hold_ends(shapes: &[LoopShape]) -> bool
    ensures { (result ≡ true) ↔ All HoldsEnds shapes.now }
{
    for i in 0..shapes.len() {
        if !holds_ends(shapes[i]) {
            return false;
        }
    }
    true
}

/// Whether the entry is the header, where it lies in the loop.
fn begins_at_header(shape: LoopShape, entry: u32) -> bool
    ensures { (result ≡ true) ↔ (IsInLoop shape entry → entry ≡ shape.header) }
{
    if lies_in(shape, entry) {
        return entry == shape.header;
    }
    true
}

/// Whether a move goes to one address alone, which is that one.
fn goes_alone(step: &Move, header: u32) -> bool
    ensures { result ≡ goes_alone step.now.to step.now.behind header }
{
    match (step.to, step.behind) {
        (Some(to), None) => to == header,
        (None, Some(behind)) => behind == header,
        _ => false,
    }
}

/// Whether each move of the back jump goes to the header alone.
fn goes_back(system: &System, shape: LoopShape) -> bool
    ensures { (result ≡ true) ↔ All (λ m. m.at ≡ shape.back → destinations m ≡ shape.header ∷ []) system.now.moves }
{
    let steps = moves_at(system.moves(), shape.back);
    for i in 0..steps.len() {
        if !goes_alone(&steps[i], shape.header) {
            return false;
        }
    }
    true
}

/// The arrivals in a range.
fn arrivals_in(arrivals: &[Arrival], first: u32, last: u32) -> &[Arrival]
    requires { IsNonDecreasingBy (λ r. r.to) arrivals.now }
    ensures { result.now ≡ filter (arrives_in first last) arrivals.now }
{
    let start = arrivals.partition_point(|arrival| arrival.to < first);
    let rest = &arrivals[start..];
    let count = rest.partition_point(|arrival| arrival.to <= last);
    &rest[..count]
}

/// Whether an arrival in a loop is at its header, or comes from within.
fn enters_well(shape: LoopShape, moves: &[Move], arrival: Arrival) -> bool
    requires { arrival.place < length moves.now }
    ensures { (result ≡ true) ↔ EntersBy shape moves.now arrival }
{
    arrival.to == shape.header || lies_in(shape, moves[arrival.place].at)
}

/// Whether the moves that come into a loop from outside go to its header.
fn is_entered(system: &System, shape: LoopShape) -> bool
    ensures { (result ≡ true) ↔ All (EntersAtHeader shape) system.now.moves }
{
    let moves = system.moves();
    let there = arrivals_in(system.arrivals(), shape.first, shape.last);
    for i in 0..there.len() {
        if !enters_well(shape, moves, there[i]) {
            return false;
        }
    }
    true
}

fn is_loop(system: &System, shape: LoopShape) -> bool
    requires { HoldsEnds shape }
    ensures { (result ≡ true) ↔ IsLoop system.now shape }
{
    begins_at_header(shape, system.entry()) && goes_back(system, shape) && is_entered(system, shape)
}

fn are_loops(system: &System, shapes: &[LoopShape]) -> bool
    requires { All HoldsEnds shapes.now }
    ensures { (result ≡ true) ↔ All (IsLoop system.now) shapes.now }
{
    for i in 0..shapes.len() {
        if !is_loop(system, shapes[i]) {
            return false;
        }
    }
    true
}

/// Where a move goes on within its function.
pub fn onward(step: &Move) -> Option<u32>
    ensures { option_to_list result ≡ onward step.now }
{
    match step.behind {
        Some(behind) => Some(behind),
        None => step.to,
    }
}

/// Whether an address is the back jump of the loop with that header.
fn is_back_of(shapes: &[LoopShape], header: u32, at: u32) -> bool
    requires { HeadersAscend shapes.now }
    ensures { (result ≡ true) ↔ Any (IsBackOf header at) shapes.now }
{
    let place = shapes.partition_point(|shape| shape.header < header);
    if place == shapes.len() {
        return false;
    }
    shapes[place].header == header && shapes[place].back == at
}

/// Whether a move goes to a higher address, or is that of a back jump.
fn goes_up(shapes: &[LoopShape], step: &Move) -> bool
    requires ascending { HeadersAscend shapes.now }
    requires back { GoesBackTo shapes.now step.now }
    ensures { (result ≡ true) ↔ GoesUp shapes.now step.now }
{
    let Some(to) = onward(step) else {
        return true;
    };
    if step.at < to {
        return true;
    }
    is_back_of(shapes, to, step.at)
}

fn go_up(system: &System, shapes: &[LoopShape]) -> bool
    requires shapes { AreShapesOf system.now.claims.loops shapes.now }
    requires loops { All (IsLoop system.now) shapes.now }
    ensures { (result ≡ true) ↔ All (GoesUp shapes.now) system.now.moves }
{
    let moves = system.moves();
    for i in 0..moves.len() {
        if !goes_up(shapes, &moves[i]) {
            return false;
        }
    }
    true
}

/// Whether no loop but one that jumps back from there has an address as its header.
fn heads_own_loop(shapes: &[LoopShape], at: u32) -> bool
    requires { HeadersAscend shapes.now }
    ensures { (result ≡ true) ↔ HeadsOwnLoop shapes.now at }
{
    let place = shapes.partition_point(|shape| shape.header < at);
    if place == shapes.len() {
        return true;
    }
    if shapes[place].header == at {
        return shapes[place].back == at;
    }
    true
}

/// Whether no jump back is the header of another loop.
fn are_apart(system: &System, shapes: &[LoopShape]) -> bool
    requires { AreShapesOf system.now.claims.loops shapes.now }
    ensures { (result ≡ true) ↔ All (λ l. HeadsOwnLoop shapes.now l.back) shapes.now }
{
    system.is_system();
    for i in 0..shapes.len() {
        if !heads_own_loop(shapes, shapes[i].back) {
            return false;
        }
    }
    true
}

/// Whether loops fit a system.
pub fn fit(system: &System, shapes: &[LoopShape]) -> bool
    ensures { (result ≡ true) ↔ ShapesFit system.now shapes.now }
{
    if !are_shapes_of(system.claims().loops(), shapes) {
        return false;
    }
    if !hold_ends(shapes) {
        return false;
    }
    if !nest(shapes) {
        return false;
    }
    if !are_loops(system, shapes) {
        return false;
    }
    if !are_apart(system, shapes) {
        return false;
    }
    go_up(system, shapes)
}
