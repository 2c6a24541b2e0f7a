// Worths of addresses, as if all code of a function were one straight line.
ghost use Rattle.std.specs.Prelude.{◌≡◌, ◌<◌, ◌≤◌, length, IfOk, IfSome};

use code_flow_lookup::move_cost;
use code_flow_system::{Move, Span, System};
use rv_core::Costs;
use std::alloc::{AllocError, Global};
use wcc_base::Items;

/// What the walks of all functions find.
#[derive(Drop)]
pub struct Line {
    /// What is still to come at each place, the number of moves before it: at a header, for who comes from its jump back.
    pub worths: Items<i128>,
    /// What a turn of each loop is worth.
    pub turns: Items<u64>,
}

/// What is found of one place: what is still to come for who comes from the jump back of its loop, what for who comes from
/// elsewhere, and what a turn is worth.
#[derive(Clone, Copy)]
struct Place {
    worth: u64,
    arrival: u64,
    turn: u64,
}

/// How many moves begin before an address.
fn place_of(moves: &[Move], at: u32) -> usize
    ensures { result ≤ length moves.now }
{
    moves.partition_point(|step| step.at < at)
}

/// What stands at a place, if there is any.
fn at_place(numbers: &[u64], place: usize) -> u64 {
    if place < numbers.len() {
        return numbers[place];
    }
    0
}

/// What a call adds: what is still to come where the called function begins.
fn called(moves: &[Move], arrivals: &[u64], step: &Move) -> u64 {
    match (step.to, step.behind) {
        (Some(to), Some(_)) => at_place(arrivals, place_of(moves, to)),
        _ => 0,
    }
}

/// What is still to come behind a jump back that is reached behind its header.
fn exit_of(
    system: &System,
    costs: &Costs,
    worths: &[u64],
    header: usize,
    back: u32,
) -> Option<u64> {
    let moves = system.moves();
    let place = place_of(moves, back);
    if place <= header || place >= moves.len() {
        return None;
    }
    if moves[place].at != back {
        return None;
    }
    let cost = move_cost(system, costs, &moves[place]);
    Some(at_place(worths, place).saturating_sub(cost))
}

/// The number of the claim of the loop that begins at a move, if one does.
fn claim_of(system: &System, step: &Move) -> Option<usize>
    ensures { IfSome result (λ k. k < length system.now.claims.loops) }
{
    let loops = system.claims().loops();
    let place = loops.partition_point(|claim| claim.header < step.at);
    if step.number != 0 || place >= loops.len() {
        return None;
    }
    if loops[place].header == step.at {
        return Some(place);
    }
    None
}

/// How often a loop multiplies its starts.
fn most_turns(max: u32) -> u64 {
    if max == 0 {
        return 1;
    }
    u64::from(max)
}

/// The place of a header, behind whose loop so much is still to come.
fn header(here: u64, exit: u64, max: u32) -> Place {
    let turn = here.saturating_sub(exit);
    Place {
        worth: exit,
        arrival: exit.saturating_add(turn.saturating_mul(most_turns(max))),
        turn,
    }
}

/// Goes from what is still to come behind a place to the place.
fn go_to(
    system: &System,
    costs: &Costs,
    worths: &[u64],
    arrivals: &[u64],
    place: usize,
    after: u64,
) -> Place
    requires { place < length system.now.moves }
{
    let moves = system.moves();
    let step = &moves[place];
    let call = called(moves, arrivals, step);
    let here = after
        .saturating_add(move_cost(system, costs, step))
        .saturating_add(call);
    let Some(number) = claim_of(system, step) else {
        return Place {
            worth: here,
            arrival: here,
            turn: 0,
        };
    };
    let claim = system.claims().loops()[number];
    match exit_of(system, costs, worths, place, claim.back) {
        Some(exit) => header(here, exit, claim.max),
        None => header(here, after, claim.max),
    }
}

/// Keeps what a turn of a loop is worth.
fn keep_turn(system: &System, step: &Move, turn: u64, turns: &mut [u64])
    requires { length turns.now ≡ length system.now.claims.loops }
    ensures { length turns.new ≡ length turns.old }
{
    if let Some(number) = claim_of(system, step) {
        turns[number] = turn;
    }
}

/// One walk over the moves of a function, the last one first.
fn walk(
    system: &System,
    costs: &Costs,
    span: Span,
    worths: &mut [u64],
    arrivals: &mut [u64],
    turns: &mut [u64],
)
    requires worths { length worths.now ≡ length system.now.moves }
    requires arrivals { length arrivals.now ≡ length system.now.moves }
    requires turns { length turns.now ≡ length system.now.claims.loops }
    ensures worths { length worths.new ≡ length worths.old }
    ensures arrivals { length arrivals.new ≡ length arrivals.old }
    ensures turns { length turns.new ≡ length turns.old }
{
    let moves = system.moves();
    let end = place_of(moves, span.end);
    let mut after = 0;
    for i in 0..end {
        let place = end - 1 - i;
        if moves[place].at < span.first {
            return;
        }
        let found = go_to(system, costs, worths, arrivals, place, after);
        keep_turn(system, &moves[place], found.turn, turns);
        worths[place] = found.worth;
        arrivals[place] = found.arrival;
        after = found.arrival;
    }
}

/// The same numbers in more bits, and one behind them.
fn wide(alloc: Global, worths: &[u64]) -> Result<Vec<i128>, AllocError>
    ensures { IfOk result (λ v. length worths.now < length v.items) }
{
    let mut wide = Vec::new(alloc);
    for i in 0..worths.len() {
        wide.push(i128::from(worths[i]))?;
    }
    wide.push(0)?;
    Ok(wide)
}

/// The walks of all functions, a called one before its callers.
pub fn walk_all(
    alloc: Global,
    system: &System,
    costs: &Costs,
    spans: &[Span],
) -> Result<Line, AllocError>
    ensures worths { IfOk result (λ l. length system.now.moves < length l.worths) }
    ensures turns { IfOk result (λ l. length l.turns ≡ length system.now.claims.loops) }
{
    let count = system.moves().len();
    let mut worths = vec![in alloc; 0; count]?;
    let mut arrivals = vec![in alloc; 0; count]?;
    let mut turns = vec![in alloc; 0; system.claims().loops().len()]?;
    for i in 0..spans.len() {
        walk(
            system,
            costs,
            spans[i],
            &mut worths,
            &mut arrivals,
            &mut turns,
        );
    }
    let worths = wide(alloc, &worths)?;
    Ok(Line {
        worths: Items::new(worths),
        turns: Items::new(turns),
    })
}
