// The reader.
ghost use Rattle.std.specs.Prelude.{◌≡◌, ◌≤◌, ◌<◌, ◌^◌, ◌+◌, ◌==◌, ◌&&◌, ◌⊎◌, [], false, length, IfOk, IfErr, All};
ghost use Rattle.report_text.specs.Forms.{mark_of, IsCopyLine, IsColumn};
ghost use Rattle.report_text.specs.Lines.{report_text};
ghost use Rattle.report_rules.specs.CertRules.{IsUnit};
ghost use Rattle.report_rules.specs.Heads.{is_greatest_kind};
ghost use Rattle.report_reading.specs.declared.fault.ReportFault.{ReportFault};
ghost use Rattle.report_reading.specs.Faults.{IsReportFault};
ghost use Rattle.report_reading.specs.Listed.{ArePotentials, AreParts, AreShares};
ghost use Rattle.report_reading.specs.Parts.{AreMultiplied, assembled};
ghost use Rattle.report_reading.specs.Reading.{StopsAt};

use crate::certificate::{Numbers, numbers_at, tail_at};
use crate::fault::ReportFault;
use crate::head::{Head, head_at};
use crate::middle::{Middle, middle_at};
use crate::place::Place;
use code_flow_answer::Kind;
use code_flow_system::{Cert, Flow, Mark};
use report_text::{Report, Share};
use std::alloc::Global;
use wcc_base::Items;

fn mark_of(kind: Kind) -> Mark
    ensures { result ≡ mark_of kind }
{
    match kind {
        Kind::Greatest => Mark::Greatest,
        Kind::Empty => Mark::Empty,
        Kind::Wide { .. } => Mark::Neither,
        Kind::Spent { .. } => Mark::Neither,
    }
}

fn is_greatest(kind: Kind) -> bool
    ensures { result ≡ is_greatest_kind kind }
{
    matches!(kind, Kind::Greatest)
}

// The report of its parts.
#[tactic(auto, using(crate::proofs::ReportLemmas::is_report))]
fn report_of(head: Head, middle: Middle, numbers: Numbers, shares: Vec<Share>) -> Report
    requires known { (head.version ≡ 1) ⊎ (head.version ≡ 2) }
    requires cycles { head.cycles < 2 ^ 63 }
    requires names { All IsCopyLine middle.names.items }
    requires claims { AreMultiplied middle.multiplied.claims middle.multiplied.nevers.items middle.multiplied.loops.items middle.multiplied.facts.items }
    requires columns { All (IsColumn (length middle.multiplied.claims.facts)) middle.columns.items }
    requires scale { (0 < numbers.scale) × (numbers.scale ≤ 2 ^ 48) }
    requires potentials { ArePotentials numbers.potentials.items }
    requires unit { IsUnit (is_greatest_kind head.kind) numbers.unit }
    requires parts { AreParts numbers.parts.items }
    requires no_parts { is_greatest_kind head.kind ≡ false → numbers.parts.items ≡ [] }
    requires shares { AreShares shares.items }
    requires no_shares { ((head.version == 2) && is_greatest_kind head.kind) ≡ false → shares.items ≡ [] }
    ensures { result ≡ assembled head.version head.cycles head.kind middle.names.items middle.multiplied.claims middle.multiplied.nevers.items middle.multiplied.loops.items middle.multiplied.facts.items middle.columns.items numbers.scale numbers.potentials.items numbers.unit numbers.parts.items shares.items }
{
    let multiplied = middle.multiplied;
    let cert = Cert {
        cycles: head.cycles,
        mark: mark_of(head.kind),
        scale: numbers.scale,
        potentials: Items::new(numbers.potentials),
        nevers: Items::new(multiplied.nevers),
        loops: Items::new(multiplied.loops),
        facts: Items::new(multiplied.facts),
        flow: Flow {
            unit: numbers.unit,
            parts: Items::new(numbers.parts),
        },
    };
    Report {
        version: head.version,
        kind: head.kind,
        names: Items::new(middle.names),
        claims: multiplied.claims,
        columns: Items::new(middle.columns),
        cert,
        shares: Items::new(shares),
    }
}

// The report of a text whose lines have numbers below 2^32.
#[tactic(auto, using(crate::proofs::WholeParts::all_read, crate::proofs::WholeParts::head_stops, crate::proofs::WholeParts::middle_stops, crate::proofs::WholeParts::certificate_stops, crate::proofs::WholeParts::tail_stops, crate::proofs::WholeParts::no_fault, crate::proofs::ReportLemmas::lines_assembled))]
fn read_lines(alloc: Global, bytes: &[u8]) -> Result<Report, ReportFault>
    requires { 1 + length bytes.now < 2 ^ 32 }
    ensures ok { IfOk result (λ r. bytes.now ≡ report_text r) }
    ensures none { IfOk result (λ _. (fault : ReportFault) → IsReportFault bytes.now fault → ⊥) }
    ensures err { IfErr result (StopsAt bytes.now) }
{
    let start = Place {
        number: 1,
        rest: bytes,
    };
    let (head, at) = match head_at(alloc, start) {
        Ok(found) => found,
        Err(fault) => return Err(fault),
    };
    let greatest = is_greatest(head.kind);
    let (middle, at) = match middle_at(alloc, at) {
        Ok(found) => found,
        Err(fault) => return Err(fault),
    };
    let (numbers, at) = match numbers_at(alloc, greatest, at) {
        Ok(found) => found,
        Err(fault) => {
            drop(middle);
            return Err(fault);
        }
    };
    match tail_at(alloc, head.version, greatest, at) {
        Ok(shares) => Ok(report_of(head, middle, numbers, shares)),
        Err(fault) => {
            drop(middle);
            drop(numbers);
            Err(fault)
        }
    }
}

/// The report of a text, or the first line that fails: in form or order before a number out of its
/// range. A text of 2^32 - 1 bytes or more is answered `Memory`.
pub fn read(alloc: Global, bytes: &[u8]) -> Result<Report, ReportFault>
    ensures ok { IfOk result (λ r. bytes.now ≡ report_text r) }
    ensures none { IfOk result (λ _. (fault : ReportFault) → IsReportFault bytes.now fault → ⊥) }
    ensures err { IfErr result (StopsAt bytes.now) }
{
    if bytes.len() >= 4_294_967_295 {
        return Err(ReportFault::Memory);
    }
    read_lines(alloc, bytes)
}
