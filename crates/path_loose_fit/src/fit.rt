// The test.
ghost use Rattle.std.specs.Prelude.{◌≡◌, ◌↔◌, ◌<◌, ◌^◌, ◌+ℤ◌, ◌<ℤ◌, pos, true, unsigned_abs, length, IfOk};
ghost use Rattle.rv_core.specs.Table.{table_of};
ghost use Rattle.code_flow_system.specs.Certificates.{AddressesAscend};
ghost use Rattle.path_ranges.specs.Limits.{LooseCountsAreFew, LooseValuesBelow, LooseValuesUnder};

use crate::claim::starts;
use crate::line::walk_all;
use crate::row::{are_paid, are_worths, worth_of};
use code_flow_system::{Span, System};
use loop_prices::loose_flows_are_bounded;
use path_ranges::loose_counts_are_below;
use path_values::potentials;
use rv_core::Costs;
use std::alloc::Global;
use wcc_base::Memory;

/// What no value of a loose flow comes to, for each unit.
const VALUES: u64 = 1 << 60;

/// What none of its counts comes to.
const COUNTS: u64 = 1 << 49;

fn is_below(a: i128, b: i128, most: u64) -> bool
    requires a { unsigned_abs a < 2 ^ 96 }
    requires b { unsigned_abs b < 2 ^ 96 }
    ensures { (result ≡ true) ↔ ((a +ℤ b) <ℤ pos most) }
{
    a + b < i128::from(most)
}

/// Whether these worths show that each loose flow has a value below a bound.
fn bound_values(
    system: &System,
    costs: &Costs,
    places: &[(u32, i128)],
    turns: &[u64],
    most: u64,
) -> bool
    requires ascending { AddressesAscend places.now }
    requires long { length turns.now ≡ length system.now.claims.loops }
    ensures { result ≡ true → LooseValuesUnder most (table_of costs.now) system.now }
{
    system.is_system();
    loose_flows_are_bounded(system);
    if !are_worths(places) {
        return false;
    }
    if !are_paid(system, costs, places, turns) {
        return false;
    }
    let entry = system.entry();
    let loops = system.claims().loops();
    is_below(worth_of(places, entry), starts(loops, turns, entry), most)
}

/// Whether each loose flow has a value below a bound, by the sum of all code in place of its longest path.
fn values_under(
    alloc: Global,
    system: &System,
    costs: &Costs,
    spans: &[Span],
    most: u64,
) -> Result<bool, Memory>
    ensures { IfOk result (λ fits. fits ≡ true → LooseValuesUnder most (table_of costs.now) system.now) }
{
    let found = walk_all(alloc, system, costs, spans)?;
    let places = potentials(alloc, system.moves(), found.worths.as_slice())?;
    Ok(bound_values(system, costs, &places, found.turns.as_slice(), most))
}

/// Whether each loose flow has a value below 2^60, by the sum of all code in place of its longest path. A yes is right;
/// where the loops of a system nest, and its functions call each other one way, a no says that the sum is larger.
pub fn values_fit(
    alloc: Global,
    system: &System,
    costs: &Costs,
    spans: &[Span],
) -> Result<bool, Memory>
    ensures { IfOk result (λ fits. fits ≡ true → LooseValuesBelow (table_of costs.now) system.now) }
{
    values_under(alloc, system, costs, spans, VALUES)
}

/// Costs by which a move takes one cycle, so that the value of a flow is the sum of its counts.
fn one_each() -> Costs {
    Costs {
        fetch_flash: 1,
        fetch_spm: 1,
        alu: 0,
        mul: 0,
        div: 0,
        load: 0,
        store: 0,
        branch: 0,
        branch_taken: 0,
        jump: 0,
        ecall: 0,
        data_flash: 0,
        data_ram: 0,
        data_spm: 0,
        stall: 0,
    }
}

/// Whether each loose flow has counts below 2^49, by the sum of all code in the same way.
pub fn counts_fit(alloc: Global, system: &System, spans: &[Span]) -> Result<bool, Memory>
    ensures { IfOk result (λ fits. fits ≡ true → LooseCountsAreFew system.now) }
{
    system.is_system();
    let costs = one_each();
    loose_counts_are_below(&costs, system);
    values_under(alloc, system, &costs, spans, COUNTS)
}
