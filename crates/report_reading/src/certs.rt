// The lines of potentials, listed moves and shares.
ghost use Rattle.std.specs.Prelude.{map, IfOk, IfErr};
ghost use Rattle.report_text.specs.Lines.{potential_line, flow_line, share_line};
ghost use Rattle.report_rules.specs.CertRules.{potential_rule, flow_rule, share_rule};
ghost use Rattle.report_reading.specs.Texts.{lines_of};
ghost use Rattle.report_reading.specs.Sections.{many};
ghost use Rattle.report_reading.specs.Listed.{ArePotentials, AreParts, AreShares};
ghost use Rattle.report_reading.specs.Reading.{at_of, IsNumbered, PassesOn, Stops};

use crate::fault::ReportFault;
use crate::place::{Place, add, fault_at, next_line};
use code_flow_system::Part;
use report_rules::{LeastMove, flow, potential, share};
use report_text::Share;
use std::alloc::Global;

/// The lines `potential` at a place, and the place behind them.
#[tactic(auto, using(crate::proofs::PassLemmas::begins_passing, crate::proofs::PassLemmas::stops_memory, crate::proofs::PassLemmas::next_shorter, crate::proofs::OrderLemmas::nothing_ordered))]
pub fn potentials<'a>(
    alloc: Global,
    from: Place<'a>,
) -> Result<(Vec<(u32, i128)>, Place<'a>), ReportFault>
    requires { IsNumbered (at_of from.number from.rest.now) }
    ensures ok { IfOk result (λ r. PassesOn (many potential_rule 0) (at_of from.entry.number from.entry.rest.now) (at_of r.1.number r.1.rest.now) (map potential_line r.0.items)) }
    ensures form { IfOk result (λ r. ArePotentials r.0.items) }
    ensures err { IfErr result (Stops (many potential_rule 0 from.entry.number (lines_of from.entry.rest.now))) }
{
    let mut potentials = Vec::new(alloc);
    let mut least: u64 = 0;
    let mut at = from;
    'lines: while let Some(line) = next_line(alloc, at, b"potential")? {
        match potential(least, line.words()) {
            Ok(found) => {
                add(&mut potentials, found)?;
                least = u64::from(found.0) + 1;
                at = line.after;
            }
            Err(flaw) => return Err(fault_at(at.number, flaw)),
        }
    }
    Ok((potentials, at))
}

/// The lines `flow` at a place, and the place behind them.
#[tactic(auto, using(crate::proofs::PassLemmas::begins_passing, crate::proofs::PassLemmas::stops_memory, crate::proofs::PassLemmas::next_shorter, crate::proofs::OrderLemmas::nothing_ordered))]
pub fn parts<'a>(alloc: Global, from: Place<'a>) -> Result<(Vec<Part>, Place<'a>), ReportFault>
    requires { IsNumbered (at_of from.number from.rest.now) }
    ensures ok { IfOk result (λ r. PassesOn (many flow_rule (record { at = 0; number = 0 })) (at_of from.entry.number from.entry.rest.now) (at_of r.1.number r.1.rest.now) (map flow_line r.0.items)) }
    ensures form { IfOk result (λ r. AreParts r.0.items) }
    ensures err { IfErr result (Stops (many flow_rule (record { at = 0; number = 0 }) from.entry.number (lines_of from.entry.rest.now))) }
{
    let mut parts = Vec::new(alloc);
    let mut least = LeastMove { at: 0, number: 0 };
    let mut at = from;
    'lines: while let Some(line) = next_line(alloc, at, b"flow")? {
        match flow(least, line.words()) {
            Ok(part) => {
                add(&mut parts, part)?;
                least = LeastMove {
                    at: part.at,
                    number: u16::from(part.number) + 1,
                };
                at = line.after;
            }
            Err(flaw) => return Err(fault_at(at.number, flaw)),
        }
    }
    Ok((parts, at))
}

/// The lines `share` at a place, and the place behind them.
#[tactic(auto, using(crate::proofs::PassLemmas::begins_passing, crate::proofs::PassLemmas::stops_memory, crate::proofs::PassLemmas::next_shorter, crate::proofs::OrderLemmas::nothing_ordered))]
pub fn shares<'a>(alloc: Global, from: Place<'a>) -> Result<(Vec<Share>, Place<'a>), ReportFault>
    requires { IsNumbered (at_of from.number from.rest.now) }
    ensures ok { IfOk result (λ r. PassesOn (many share_rule 0) (at_of from.entry.number from.entry.rest.now) (at_of r.1.number r.1.rest.now) (map share_line r.0.items)) }
    ensures form { IfOk result (λ r. AreShares r.0.items) }
    ensures err { IfErr result (Stops (many share_rule 0 from.entry.number (lines_of from.entry.rest.now))) }
{
    let mut shares = Vec::new(alloc);
    let mut least = 0;
    let mut at = from;
    'lines: while let Some(line) = next_line(alloc, at, b"share")? {
        match share(alloc, least, line.words()) {
            Ok(found) => {
                least = found.end;
                add(&mut shares, found)?;
                at = line.after;
            }
            Err(flaw) => return Err(fault_at(at.number, flaw)),
        }
    }
    Ok((shares, at))
}
