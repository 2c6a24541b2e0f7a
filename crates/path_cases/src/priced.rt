// The flow that the walks list at prices that are no costs.
ghost use Rattle.std.specs.Prelude.{◌≡◌, ◌%◌, pos, IfOk, map};
ghost use Rattle.rv_core.specs.Table.{table_of};
ghost use Rattle.loop_walks.specs.Walks.{worth_at};
ghost use Rattle.path_places.specs.Reached.{AreReached};
ghost use Rattle.path_conditions.specs.Bounding.{CanBound};
ghost use Rattle.path_cases.specs.Prices.{rest_of};

use code_flow_lookup::move_cost;
use code_flow_system::{LoopClaim, LoopShape, Part, Span, System};
use path_cert::priced_flows_are_flows;
use path_flow_counts::flow;
use path_search::is_boundable;
use path_walks::{Priced, place_of, settle_all};
use rv_core::Costs;
use std::alloc::{AllocError, Global};

/// What a block is worth.
const BLOCK: i128 = -(1 << 62);

/// A price that grows with no cost.
fn rest(cost: u64) -> i128
    ensures { result ≡ pos (cost % 7) }
{
    i128::from(cost % 7)
}

/// Such a price of each move, in their order.
fn prices(alloc: Global, system: &System, costs: &Costs) -> Result<Vec<i128>, AllocError>
    ensures { IfOk result (λ v. v.items ≡ map (rest_of (table_of costs.now) system.now) system.now.moves) }
{
    let moves = system.moves();
    let mut prices = Vec::new(alloc);
    for i in 0..moves.len() {
        prices.push(rest(move_cost(system, costs, &moves[i])))?;
    }
    Ok(prices)
}

fn worth_at(worths: &[i128], place: usize) -> i128
    ensures { result ≡ worth_at worths.now place }
{
    if place < worths.len() {
        return worths[place];
    }
    0
}

/// How often a move is made.
fn amount(parts: &[Part], at: u32, number: u8) -> i128 {
    let mut sum: i128 = 0;
    for i in 0..parts.len() {
        if parts[i].at == at && parts[i].number == number {
            sum = sum.wrapping_add(parts[i].part);
        }
    }
    sum
}

/// How often an address is visited.
fn visits(parts: &[Part], at: u32) -> i128 {
    let mut sum: i128 = 0;
    for i in 0..parts.len() {
        if parts[i].at == at {
            sum = sum.wrapping_add(parts[i].part);
        }
    }
    sum
}

/// How often an address is come to, from the entry or by a move.
fn arrivals(system: &System, parts: &[Part], at: u32) -> i128 {
    let mut sum: i128 = 0;
    if system.entry() == at {
        sum = 1;
    }
    let moves = system.moves();
    for i in 0..moves.len() {
        let made = amount(parts, moves[i].at, moves[i].number);
        if moves[i].to == Some(at) {
            sum = sum.wrapping_add(made);
        }
        if moves[i].behind == Some(at) {
            sum = sum.wrapping_add(made);
        }
    }
    sum
}

/// Whether what comes to each address leaves it.
fn is_conserved(system: &System, parts: &[Part]) -> bool {
    let moves = system.moves();
    for i in 0..moves.len() {
        if visits(parts, moves[i].at) != arrivals(system, parts, moves[i].at) {
            return false;
        }
    }
    true
}

fn keeps_loop(parts: &[Part], claim: LoopClaim) -> bool {
    let visits_header = visits(parts, claim.header);
    let starts = visits_header.wrapping_sub(visits(parts, claim.back));
    i128::from(claim.min).wrapping_mul(starts) <= visits_header
        && visits_header <= i128::from(claim.max).wrapping_mul(starts)
}

fn keeps_claims(system: &System, parts: &[Part]) -> bool {
    let nevers = system.claims().nevers();
    for i in 0..nevers.len() {
        if visits(parts, nevers[i].at) != 0 {
            return false;
        }
    }
    let loops = system.claims().loops();
    for i in 0..loops.len() {
        if !keeps_loop(parts, loops[i]) {
            return false;
        }
    }
    true
}

/// What the moves of a flow cost at their prices.
fn total(system: &System, prices: &[i128], parts: &[Part]) -> i128 {
    let moves = system.moves();
    let mut sum: i128 = 0;
    for i in 0..moves.len() {
        let made = amount(parts, moves[i].at, moves[i].number);
        sum = sum.wrapping_add(made.wrapping_mul(worth_at(prices, i)));
    }
    sum
}

/// Whether the walks at prices that are no costs list a flow of the entry's worth where there is a flow, and else none.
pub fn lists_flow(
    alloc: Global,
    system: &System,
    shapes: &[LoopShape],
    spans: &[Span],
    costs: &Costs,
    is_there: bool,
) -> Result<bool, AllocError>
    requires reached { AreReached system.now }
    requires can { CanBound (table_of costs.now) system.now shapes.now spans.now }
{
    is_boundable(system, shapes, spans, costs);
    priced_flows_are_flows(system, shapes, spans, costs);
    let prices = prices(alloc, system, costs)?;
    let priced = Priced {
        system,
        shapes,
        prices: &prices,
        low: BLOCK,
    };
    let settled = settle_all(alloc, priced, spans)?;
    let entry = place_of(system.moves(), system.entry());
    let worth = worth_at(settled.worths.as_slice(), entry);
    if worth < 0 {
        return Ok(!is_there);
    }
    let parts = flow(alloc, priced, spans, &settled)?;
    Ok(
        is_there
            && total(system, &prices, &parts) == worth
            && is_conserved(system, &parts)
            && keeps_claims(system, &parts),
    )
}
