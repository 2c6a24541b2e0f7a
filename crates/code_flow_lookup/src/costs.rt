// What a move costs.
ghost use Rattle.std.specs.Prelude.{◌≡◌, ◌≢◌, ◌+◌, ◌<◌, ◌^◌, true, false, None, Some, IfSome, if◌then◌else◌};
ghost use Rattle.rv_core.specs.declared.regions.Region.{Region};
ghost use Rattle.rv_core.specs.Rows.{row_of};
ghost use Rattle.rv_core.specs.Machine.{behind};
ghost use Rattle.rv_core.specs.Table.{table_of, accesses, cost_of};
ghost use Rattle.code_flow_system.specs.Claims.{is_filled};
ghost use Rattle.code_flow_system.specs.Systems.{IsPlaced, AreAscending};
ghost use Rattle.code_flow_system.specs.MoveCosts.{instruction_among, wait_ahead, access_price, may_touch, move_cost};
ghost use Rattle.code_flow_lookup.specs.Lines.{line_at, begun, may_by, AreLaid};

use crate::moves::instruction_at;
use code_flow_system::{Move, System, Within};
use rv_core::{Class, Costs, Instr, Region, cost, region, wait};

/// The first line of a list, if it has begun before the address or there.
fn begun(lines: &[Within], at: u32) -> Option<Within>
    ensures { result ≡ begun lines.now at }
{
    if lines.is_empty() {
        return None;
    }
    if at < lines[0].first {
        return None;
    }
    Some(lines[0])
}

/// The line of regions that holds an address.
fn line_at(lines: &[Within], at: u32) -> Option<Within>
    requires { AreLaid None lines.now }
    ensures value { result ≡ line_at lines.now at }
    ensures filled { IfSome result (λ w. is_filled w ≡ true) }
{
    let start = lines.partition_point(|line| line.end <= at);
    begun(&lines[start..], at)
}

/// Whether an access under a line, if there is one, may touch a region.
fn may_touch(line: Option<Within>, region: Region) -> bool
    ensures { result ≡ may_by line region }
{
    match line {
        None => true,
        Some(line) => match region {
            Region::Flash => line.flash,
            Region::Spm => line.spm,
            Region::Ram => line.ram,
        },
    }
}

/// The cycles of an access to a region under a line, and 0 where it can't touch it.
fn cost_under(
    costs: &Costs,
    instr: &Instr,
    fetch: Region,
    line: Option<Within>,
    target: Region,
) -> u32
    requires fetch { fetch ≢ Region.Ram }
    requires access { accesses (row_of instr.now.op).class ≡ true }
    ensures { result ≡ if may_by line target then cost_of (table_of costs.now) instr.now fetch (Some target) false else 0 }
{
    if !may_touch(line, target) {
        return 0;
    }
    cost(costs, instr, fetch, Some(target), false)
}

/// The cycles of a load or store at the dearest of the regions that its line names.
fn dearest(costs: &Costs, instr: &Instr, fetch: Region, line: Option<Within>) -> u32
    requires fetch { fetch ≢ Region.Ram }
    requires access { accesses (row_of instr.now.op).class ≡ true }
    requires filled { IfSome line (λ w. is_filled w ≡ true) }
    ensures { result ≡ cost_of (table_of costs.now) instr.now fetch None false + access_price (table_of costs.now) true (may_by line) }
{
    let flash = cost_under(costs, instr, fetch, line, Region::Flash);
    let spm = cost_under(costs, instr, fetch, line, Region::Spm);
    let ram = cost_under(costs, instr, fetch, line, Region::Ram);
    flash.max(spm.max(ram))
}

/// The cycles of an instruction without what it waits for; only a branch can be taken.
fn own_cost(costs: &Costs, instr: &Instr, fetch: Region, line: Option<Within>, taken: bool) -> u32
    requires fetch { fetch ≢ Region.Ram }
    requires filled { IfSome line (λ w. is_filled w ≡ true) }
    ensures { result ≡ cost_of (table_of costs.now) instr.now fetch None taken + access_price (table_of costs.now) (accesses (row_of instr.now.op).class) (may_by line) }
{
    match instr.op().row().class {
        Class::Load | Class::Store => dearest(costs, instr, fetch, line),
        Class::Branch => cost(costs, instr, fetch, None, taken),
        _ => cost(costs, instr, fetch, None, false),
    }
}

/// The cycles that an instruction makes the one right behind it wait.
fn wait_ahead(costs: &Costs, instr: &Instr, moves: &[Move], next: u32) -> u32
    requires { AreAscending moves.now }
    ensures value { result ≡ wait_ahead (table_of costs.now) instr.now (instruction_among moves.now next) }
    ensures small { result < 1001 }
{
    match instruction_at(moves, next) {
        Some(behind) => wait(costs, instr, &behind),
        None => 0,
    }
}

/// The address behind an instruction.
fn behind(at: u32) -> u32
    ensures { result ≡ behind at }
{
    at.wrapping_add(4)
}

/// A law: a system's lines of regions are in order, and none is empty.
fn lines_are_laid(system: &System)
    ensures { AreLaid None system.now.claims.regions }
{
    system.is_system();
}

/// The cycles of a move: its instruction, an access at the dearest of the regions that the claims
/// allow it, and for a load the wait of the instruction right behind it.
pub fn move_cost(system: &System, costs: &Costs, step: &Move) -> u64
    requires { IsPlaced step.now.at }
    ensures value { result ≡ move_cost (table_of costs.now) system.now step.now }
    ensures small { result < 2 ^ 33 }
{
    lines_are_laid(system);
    let Some(fetch) = region(step.at) else {
        return 0;
    };
    let line = line_at(system.claims().regions(), step.at);
    let own = own_cost(costs, &step.instr, fetch, line, step.number == 1);
    let next = behind(step.at);
    let wait = wait_ahead(costs, &step.instr, system.moves(), next);
    u64::from(own) + u64::from(wait)
}
