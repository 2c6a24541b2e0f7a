// The lines of the claims.
ghost use Rattle.std.specs.Prelude.{◌≡◌, ◌+◌, map, length, nat_le, IfOk, IfErr, if◌then◌else◌};
ghost use Rattle.report_text.specs.Forms.{Ascend};
ghost use Rattle.report_text.specs.Lines.{exit_line, never_line, region_line, loop_line, fact_line, paired};
ghost use Rattle.report_rules.specs.ClaimRules.{exit_rule, never_rule, region_rule, loop_rule};
ghost use Rattle.report_rules.specs.FactRules.{fact_rule};
ghost use Rattle.report_reading.specs.Texts.{lines_of};
ghost use Rattle.report_reading.specs.Sections.{many};
ghost use Rattle.report_reading.specs.Listed.{AreNevers, AreRegions, AreLoops, AreFacts};
ghost use Rattle.report_reading.specs.Reading.{at_of, IsNumbered, Passes, PassesOn, Stops};

use crate::fault::ReportFault;
use crate::place::{Place, add, fault_at, next_line};
use code_flow_system::{FactClaim, LoopClaim, Never, Within};
use report_rules::{Reached, exit, fact, loop_claim, never, region};
use std::alloc::Global;

/// The lines `exit` at a place, and the place behind them.
#[tactic(auto, using(crate::proofs::PassLemmas::begins_passing, crate::proofs::PassLemmas::stops_memory, crate::proofs::PassLemmas::next_shorter, crate::proofs::OrderLemmas::nothing_ordered))]
pub fn exits<'a>(alloc: Global, from: Place<'a>) -> Result<(Vec<u32>, Place<'a>), ReportFault>
    requires { IsNumbered (at_of from.number from.rest.now) }
    ensures ok { IfOk result (λ r. PassesOn (many exit_rule 0) (at_of from.entry.number from.entry.rest.now) (at_of r.1.number r.1.rest.now) (map exit_line r.0.items)) }
    ensures ascend { IfOk result (λ r. Ascend r.0.items) }
    ensures err { IfErr result (Stops (many exit_rule 0 from.entry.number (lines_of from.entry.rest.now))) }
{
    let mut exits = Vec::new(alloc);
    let mut least: u64 = 0;
    let mut at = from;
    'lines: while let Some(line) = next_line(alloc, at, b"exit")? {
        match exit(least, line.words()) {
            Ok(place) => {
                add(&mut exits, place)?;
                least = u64::from(place) + 1;
                at = line.after;
            }
            Err(flaw) => return Err(fault_at(at.number, flaw)),
        }
    }
    Ok((exits, at))
}

/// The lines `never` at a place, with their multipliers, and the place behind them.
#[tactic(auto, using(crate::proofs::PassLemmas::begins_passing, crate::proofs::PassLemmas::stops_memory, crate::proofs::PassLemmas::next_shorter, crate::proofs::OrderLemmas::nothing_ordered))]
pub fn nevers<'a>(
    alloc: Global,
    from: Place<'a>,
) -> Result<(Vec<Never>, Vec<i128>, Place<'a>), ReportFault>
    requires { IsNumbered (at_of from.number from.rest.now) }
    ensures ok { IfOk result (λ r. PassesOn (many never_rule 0) (at_of from.entry.number from.entry.rest.now) (at_of r.2.number r.2.rest.now) (paired never_line r.0.items r.1.items)) }
    ensures form { IfOk result (λ r. AreNevers r.0.items r.1.items) }
    ensures err { IfErr result (Stops (many never_rule 0 from.entry.number (lines_of from.entry.rest.now))) }
{
    let mut nevers = Vec::new(alloc);
    let mut by = Vec::new(alloc);
    let mut least: u64 = 0;
    let mut at = from;
    'lines: while let Some(line) = next_line(alloc, at, b"never")? {
        match never(least, line.words()) {
            Ok((claim, multiplier)) => {
                add(&mut nevers, claim)?;
                add(&mut by, multiplier)?;
                least = u64::from(claim.at) + 1;
                at = line.after;
            }
            Err(flaw) => return Err(fault_at(at.number, flaw)),
        }
    }
    Ok((nevers, by, at))
}

// How far lines `region` reach with one more.
fn reached_with(before: Reached, region: Within) -> Reached
    ensures least { result.least ≡ region.first + 1 }
    ensures end { result.end ≡ (if nat_le region.end region.first then before.end else region.end) }
{
    let end = if region.end <= region.first {
        before.end
    } else {
        region.end
    };
    Reached {
        least: u64::from(region.first) + 1,
        end,
    }
}

/// The lines `region` at a place, and the place behind them.
#[tactic(auto, using(crate::proofs::PassLemmas::begins_passing, crate::proofs::PassLemmas::stops_memory, crate::proofs::PassLemmas::next_shorter, crate::proofs::OrderLemmas::nothing_ordered))]
pub fn regions<'a>(alloc: Global, from: Place<'a>) -> Result<(Vec<Within>, Place<'a>), ReportFault>
    requires { IsNumbered (at_of from.number from.rest.now) }
    ensures ok { IfOk result (λ r. PassesOn (many region_rule (record { least = 0; end = 0 })) (at_of from.entry.number from.entry.rest.now) (at_of r.1.number r.1.rest.now) (map region_line r.0.items)) }
    ensures form { IfOk result (λ r. AreRegions r.0.items) }
    ensures err { IfErr result (Stops (many region_rule (record { least = 0; end = 0 }) from.entry.number (lines_of from.entry.rest.now))) }
{
    let mut regions = Vec::new(alloc);
    let mut reached = Reached { least: 0, end: 0 };
    let mut at = from;
    'lines: while let Some(line) = next_line(alloc, at, b"region")? {
        match region(reached, line.words()) {
            Ok(claim) => {
                add(&mut regions, claim)?;
                reached = reached_with(reached, claim);
                at = line.after;
            }
            Err(flaw) => return Err(fault_at(at.number, flaw)),
        }
    }
    Ok((regions, at))
}

/// The lines `loop` at a place, with their multipliers, and the place behind them.
#[tactic(auto, using(crate::proofs::PassLemmas::begins_passing, crate::proofs::PassLemmas::stops_memory, crate::proofs::PassLemmas::next_shorter, crate::proofs::OrderLemmas::nothing_ordered))]
pub fn loops<'a>(
    alloc: Global,
    from: Place<'a>,
) -> Result<(Vec<LoopClaim>, Vec<(i128, i128)>, Place<'a>), ReportFault>
    requires { IsNumbered (at_of from.number from.rest.now) }
    ensures ok { IfOk result (λ r. PassesOn (many loop_rule 0) (at_of from.entry.number from.entry.rest.now) (at_of r.2.number r.2.rest.now) (paired loop_line r.0.items r.1.items)) }
    ensures form { IfOk result (λ r. AreLoops r.0.items r.1.items) }
    ensures err { IfErr result (Stops (many loop_rule 0 from.entry.number (lines_of from.entry.rest.now))) }
{
    let mut loops = Vec::new(alloc);
    let mut by = Vec::new(alloc);
    let mut least: u64 = 0;
    let mut at = from;
    'lines: while let Some(line) = next_line(alloc, at, b"loop")? {
        match loop_claim(least, line.words()) {
            Ok((claim, multipliers)) => {
                add(&mut loops, claim)?;
                add(&mut by, multipliers)?;
                least = u64::from(claim.header) + 1;
                at = line.after;
            }
            Err(flaw) => return Err(fault_at(at.number, flaw)),
        }
    }
    Ok((loops, by, at))
}

/// The lines `fact` at a place, with their multipliers, and the place behind them.
#[tactic(auto, using(crate::proofs::PassLemmas::begins_passing, crate::proofs::PassLemmas::stops_memory, crate::proofs::PassLemmas::next_shorter, crate::proofs::OrderLemmas::nothing_ordered))]
pub fn facts<'a>(
    alloc: Global,
    from: Place<'a>,
) -> Result<(Vec<FactClaim>, Vec<i128>, Place<'a>), ReportFault>
    requires { IsNumbered (at_of from.number from.rest.now) }
    ensures ok { IfOk result (λ r. Passes (many fact_rule 0) (at_of from.entry.number from.entry.rest.now) (length r.0.items) (at_of r.2.number r.2.rest.now) (paired fact_line r.0.items r.1.items)) }
    ensures form { IfOk result (λ r. AreFacts r.0.items r.1.items) }
    ensures err { IfErr result (Stops (many fact_rule 0 from.entry.number (lines_of from.entry.rest.now))) }
{
    let mut facts = Vec::new(alloc);
    let mut by = Vec::new(alloc);
    let mut at = from;
    'lines: while let Some(line) = next_line(alloc, at, b"fact")? {
        match fact(alloc, line.words()) {
            Ok((claim, multiplier)) => {
                add(&mut facts, claim)?;
                add(&mut by, multiplier)?;
                at = line.after;
            }
            Err(flaw) => return Err(fault_at(at.number, flaw)),
        }
    }
    Ok((facts, by, at))
}
