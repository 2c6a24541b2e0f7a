// Functions of a system.
ghost use Rattle.std.specs.Prelude.{◌≡◌, ◌↔◌, ◌<◌, true, length, All, filter};
ghost use Rattle.std.specs.List.{Any};
ghost use Rattle.code_flow_system.specs.Systems.{AreAscending};
ghost use Rattle.code_flow_system.specs.Shapes.{IsInSpan, IsInOne, AreApart, AreAllApart, onward};
ghost use Rattle.path_fit.specs.Spans.{lies_within, HoldsFirst, AreInOrder, CallsBefore, KeepsTo, KeepAt, KeepUpTo, SpansFit};

use crate::loops::onward;
use code_flow_system::{Move, Span, System};

/// Whether each function holds the address where it begins.
fn hold_firsts(spans: &[Span]) -> bool
    ensures { (result ≡ true) ↔ All HoldsFirst spans.now }
{
    for i in 0..spans.len() {
        if spans[i].end <= spans[i].first {
            return false;
        }
    }
    true
}

/// Whether two functions have no address in common.
fn is_apart(a: Span, b: Span) -> bool
    ensures { (result ≡ true) ↔ AreApart a b }
{
    a.end <= b.first || (b.end <= a.first || (a.end <= a.first || b.end <= b.first))
}

fn is_apart_from(span: Span, others: &[Span]) -> bool
    ensures { (result ≡ true) ↔ All (AreApart span) others.now }
{
    for i in 0..others.len() {
        if !is_apart(span, others[i]) {
            return false;
        }
    }
    true
}

/// Whether functions in any order are apart, pair by pair.
fn are_apart_by_pairs(spans: &[Span]) -> bool
    ensures { (result ≡ true) ↔ AreAllApart spans.now }
{
    for i in 0..spans.len() {
        if !is_apart_from(spans[i], &spans[i + 1..]) {
            return false;
        }
    }
    true
}

/// Whether each function begins where the one before it has ended, or behind.
fn are_in_order(spans: &[Span]) -> bool
    ensures { (result ≡ true) ↔ AreInOrder 0 spans.now }
{
    let mut end = 0;
    for i in 0..spans.len() {
        if spans[i].first < end {
            return false;
        }
        if spans[i].end < spans[i].first {
            return false;
        }
        end = spans[i].end;
    }
    true
}

/// Whether an address lies in a function.
fn lies_within(span: Span, at: u32) -> bool
    ensures { result ≡ lies_within span at }
{
    span.first <= at && at < span.end
}

/// The moves of a function.
fn moves_of(moves: &[Move], span: Span) -> &[Move]
    requires { AreAscending moves.now }
    ensures { result.now ≡ filter (λ m. lies_within span m.at) moves.now }
{
    let start = moves.partition_point(|step| step.at < span.first);
    let rest = &moves[start..];
    let count = rest.partition_point(|step| step.at < span.end);
    &rest[..count]
}

/// Whether each move is one of a function. Functions that are apart have as many moves as there are in all exactly then.
fn cover(system: &System, spans: &[Span]) -> bool
    requires { AreAllApart spans.now }
    ensures { (result ≡ true) ↔ All (λ m. IsInOne spans.now m.at) system.now.moves }
{
    let moves = system.moves();
    let mut held = 0;
    for i in 0..spans.len() {
        held += moves_of(moves, spans[i]).len();
    }
    held == moves.len()
}

/// Whether one of the functions in order begins at an address.
fn begins_in_order(spans: &[Span], at: u32) -> bool
    requires { AreInOrder 0 spans.now }
    ensures { (result ≡ true) ↔ Any (λ p. p.first ≡ at) spans.now }
{
    let place = spans.partition_point(|span| span.first < at);
    if place == spans.len() {
        return false;
    }
    spans[place].first == at
}

/// Whether one of the functions begins at an address.
fn begins(spans: &[Span], in_order: bool, at: u32) -> bool
    requires { in_order ≡ true → AreInOrder 0 spans.now }
    ensures { (result ≡ true) ↔ Any (λ p. p.first ≡ at) spans.now }
{
    if in_order {
        return begins_in_order(spans, at);
    }
    for i in 0..spans.len() {
        if spans[i].first == at {
            return true;
        }
    }
    false
}

/// Whether a move stays in a function, but for a call's target.
fn stays(span: Span, step: &Move) -> bool
    ensures { (result ≡ true) ↔ All (IsInSpan span) (onward step.now) }
{
    match onward(step) {
        Some(to) => lies_within(span, to),
        None => true,
    }
}

/// Whether a call goes to the beginning of one of the functions before its own.
fn calls_before(before: &[Span], in_order: bool, step: &Move) -> bool
    requires { in_order ≡ true → AreInOrder 0 before.now }
    ensures { (result ≡ true) ↔ CallsBefore before.now step.now }
{
    let Some(_behind) = step.behind else {
        return true;
    };
    let Some(target) = step.to else {
        return true;
    };
    begins(before, in_order, target)
}

/// Whether a move stays in a function and calls functions before it.
fn keeps_to(before: &[Span], in_order: bool, span: Span, step: &Move) -> bool
    requires { in_order ≡ true → AreInOrder 0 before.now }
    ensures { (result ≡ true) ↔ KeepsTo before.now span step.now }
{
    if !stays(span, step) {
        return false;
    }
    calls_before(before, in_order, step)
}

fn keep_to(before: &[Span], in_order: bool, span: Span, steps: &[Move]) -> bool
    requires { in_order ≡ true → AreInOrder 0 before.now }
    ensures { (result ≡ true) ↔ All (KeepsTo before.now span) steps.now }
{
    for i in 0..steps.len() {
        if !keeps_to(before, in_order, span, &steps[i]) {
            return false;
        }
    }
    true
}

/// Whether the moves of the function at a place stay in it and call functions before it.
fn keep_at(moves: &[Move], spans: &[Span], in_order: bool, place: usize) -> bool
    requires ascending { AreAscending moves.now }
    requires order { in_order ≡ true → AreInOrder 0 spans.now }
    requires place { place < length spans.now }
    ensures { (result ≡ true) ↔ KeepAt place spans.now moves.now }
{
    let span = spans[place];
    keep_to(&spans[..place], in_order, span, moves_of(moves, span))
}

/// Whether the moves of each function stay in it and call functions before it.
fn keep(system: &System, spans: &[Span], in_order: bool) -> bool
    requires { in_order ≡ true → AreInOrder 0 spans.now }
    ensures { (result ≡ true) ↔ KeepUpTo (length spans.now) spans.now system.now.moves }
{
    let moves = system.moves();
    for i in 0..spans.len() {
        if !keep_at(moves, spans, in_order, i) {
            return false;
        }
    }
    true
}

fn are_apart(spans: &[Span], in_order: bool) -> bool
    requires { in_order ≡ true → AreInOrder 0 spans.now }
    ensures { (result ≡ true) ↔ AreAllApart spans.now }
{
    if in_order {
        return true;
    }
    are_apart_by_pairs(spans)
}

/// Whether functions fit a system.
pub fn fit(system: &System, spans: &[Span]) -> bool
    ensures { (result ≡ true) ↔ SpansFit system.now spans.now }
{
    if !hold_firsts(spans) {
        return false;
    }
    let in_order = are_in_order(spans);
    if !are_apart(spans, in_order) {
        return false;
    }
    if !cover(system, spans) {
        return false;
    }
    keep(system, spans, in_order)
}
