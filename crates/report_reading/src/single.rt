// The lines that stand once.
ghost use Rattle.std.specs.Prelude.{◌≡◌, ◌≤◌, ◌<◌, ◌⊎◌, ◌^◌, ◌∷◌, [], false, IfOk, IfErr};
ghost use Rattle.report_text.specs.Lines.{version_lines, cycles_line, kind_line, scale_line, unit_line, end_line};
ghost use Rattle.report_rules.specs.Heads.{version_rule, cycles_rule, is_greatest_kind, kind_rule, end_rule};
ghost use Rattle.report_rules.specs.CertRules.{scale_rule, IsUnit, unit_rule};
ghost use Rattle.report_reading.specs.Texts.{lines_of};
ghost use Rattle.report_reading.specs.Sections.{one, maybe};
ghost use Rattle.report_reading.specs.Reading.{at_of, IsNumbered, Passes, Stops};

use crate::fault::ReportFault;
use crate::place::{Place, fault_at, next_line};
use code_flow_answer::Kind;
use report_rules::{cycles, end, kind, scale, unit, version};
use std::alloc::Global;

/// The version: 1 where no line names it.
#[tactic(auto, using(crate::proofs::PassLemmas::maybe_line, crate::proofs::PassLemmas::maybe_flaw, crate::proofs::PassLemmas::maybe_absent, crate::proofs::PassLemmas::stops_memory))]
pub fn version_at<'a>(alloc: Global, from: Place<'a>) -> Result<(u8, Place<'a>), ReportFault>
    requires { IsNumbered (at_of from.number from.rest.now) }
    ensures ok { IfOk result (λ r. Passes (maybe version_rule 1) (at_of from.entry.number from.entry.rest.now) r.0 (at_of r.1.number r.1.rest.now) (version_lines r.0)) }
    ensures known { IfOk result (λ r. (r.0 ≡ 1) ⊎ (r.0 ≡ 2)) }
    ensures err { IfErr result (Stops (maybe version_rule 1 from.entry.number (lines_of from.entry.rest.now))) }
{
    match next_line(alloc, from, b"version")? {
        None => Ok((1, from)),
        Some(line) => match version(1, line.words()) {
            Ok(()) => Ok((2, line.after)),
            Err(flaw) => Err(fault_at(from.number, flaw)),
        },
    }
}

/// The cycles.
#[tactic(auto, using(crate::proofs::PassLemmas::one_line, crate::proofs::PassLemmas::one_flaw, crate::proofs::PassLemmas::one_absent, crate::proofs::PassLemmas::stops_memory))]
pub fn cycles_at<'a>(alloc: Global, from: Place<'a>) -> Result<(u64, Place<'a>), ReportFault>
    requires { IsNumbered (at_of from.number from.rest.now) }
    ensures ok { IfOk result (λ r. Passes (one cycles_rule tt) (at_of from.entry.number from.entry.rest.now) tt (at_of r.1.number r.1.rest.now) (cycles_line r.0 ∷ [])) }
    ensures range { IfOk result (λ r. r.0 < 2 ^ 63) }
    ensures err { IfErr result (Stops (one cycles_rule tt from.entry.number (lines_of from.entry.rest.now))) }
{
    match next_line(alloc, from, b"cycles")? {
        None => Err(ReportFault::Line {
            number: from.number,
        }),
        Some(line) => match cycles(line.words()) {
            Ok(number) => Ok((number, line.after)),
            Err(flaw) => Err(fault_at(from.number, flaw)),
        },
    }
}

/// The kind.
#[tactic(auto, using(crate::proofs::PassLemmas::one_line, crate::proofs::PassLemmas::one_flaw, crate::proofs::PassLemmas::one_absent, crate::proofs::PassLemmas::stops_memory))]
pub fn kind_at<'a>(alloc: Global, from: Place<'a>) -> Result<(Kind, Place<'a>), ReportFault>
    requires { IsNumbered (at_of from.number from.rest.now) }
    ensures ok { IfOk result (λ r. Passes (one kind_rule false) (at_of from.entry.number from.entry.rest.now) (is_greatest_kind r.0) (at_of r.1.number r.1.rest.now) (kind_line r.0 ∷ [])) }
    ensures err { IfErr result (Stops (one kind_rule false from.entry.number (lines_of from.entry.rest.now))) }
{
    match next_line(alloc, from, b"kind")? {
        None => Err(ReportFault::Line {
            number: from.number,
        }),
        Some(line) => match kind(line.words()) {
            Ok(kind) => Ok((kind, line.after)),
            Err(flaw) => Err(fault_at(from.number, flaw)),
        },
    }
}

/// The scale.
#[tactic(auto, using(crate::proofs::PassLemmas::one_line, crate::proofs::PassLemmas::one_flaw, crate::proofs::PassLemmas::one_absent, crate::proofs::PassLemmas::stops_memory))]
pub fn scale_at<'a>(alloc: Global, from: Place<'a>) -> Result<(u64, Place<'a>), ReportFault>
    requires { IsNumbered (at_of from.number from.rest.now) }
    ensures ok { IfOk result (λ r. Passes (one scale_rule tt) (at_of from.entry.number from.entry.rest.now) tt (at_of r.1.number r.1.rest.now) (scale_line r.0 ∷ [])) }
    ensures range { IfOk result (λ r. (0 < r.0) × (r.0 ≤ 2 ^ 48)) }
    ensures err { IfErr result (Stops (one scale_rule tt from.entry.number (lines_of from.entry.rest.now))) }
{
    match next_line(alloc, from, b"scale")? {
        None => Err(ReportFault::Line {
            number: from.number,
        }),
        Some(line) => match scale(line.words()) {
            Ok(number) => Ok((number, line.after)),
            Err(flaw) => Err(fault_at(from.number, flaw)),
        },
    }
}

/// The unit.
#[tactic(auto, using(crate::proofs::PassLemmas::one_line, crate::proofs::PassLemmas::one_flaw, crate::proofs::PassLemmas::one_absent, crate::proofs::PassLemmas::stops_memory))]
pub fn unit_at<'a>(
    alloc: Global,
    greatest: bool,
    from: Place<'a>,
) -> Result<(u64, Place<'a>), ReportFault>
    requires { IsNumbered (at_of from.number from.rest.now) }
    ensures ok { IfOk result (λ r. Passes (one unit_rule greatest) (at_of from.entry.number from.entry.rest.now) greatest (at_of r.1.number r.1.rest.now) (unit_line r.0 ∷ [])) }
    ensures range { IfOk result (λ r. IsUnit greatest r.0) }
    ensures err { IfErr result (Stops (one unit_rule greatest from.entry.number (lines_of from.entry.rest.now))) }
{
    match next_line(alloc, from, b"unit")? {
        None => Err(ReportFault::Line {
            number: from.number,
        }),
        Some(line) => match unit(greatest, line.words()) {
            Ok(number) => Ok((number, line.after)),
            Err(flaw) => Err(fault_at(from.number, flaw)),
        },
    }
}

/// The last line.
#[tactic(auto, using(crate::proofs::PassLemmas::one_line, crate::proofs::PassLemmas::one_flaw, crate::proofs::PassLemmas::one_absent, crate::proofs::PassLemmas::stops_memory))]
pub fn end_at<'a>(alloc: Global, from: Place<'a>) -> Result<Place<'a>, ReportFault>
    requires { IsNumbered (at_of from.number from.rest.now) }
    ensures ok { IfOk result (λ to. Passes (one end_rule tt) (at_of from.entry.number from.entry.rest.now) tt (at_of to.number to.rest.now) (end_line ∷ [])) }
    ensures err { IfErr result (Stops (one end_rule tt from.entry.number (lines_of from.entry.rest.now))) }
{
    match next_line(alloc, from, b"end")? {
        None => Err(ReportFault::Line {
            number: from.number,
        }),
        Some(line) => match end(line.words()) {
            Ok(()) => Ok(line.after),
            Err(flaw) => Err(fault_at(from.number, flaw)),
        },
    }
}
