// The certificate's other numbers, the shares and the last line.
ghost use Rattle.std.specs.Prelude.{◌≡◌, ◌≤◌, ◌<◌, ◌^◌, ◌==◌, ◌&&◌, [], false, map, IfOk, IfErr};
ghost use Rattle.report_text.specs.Lines.{flow_line, share_line};
ghost use Rattle.report_rules.specs.CertRules.{IsUnit, flow_rule, share_rule};
ghost use Rattle.report_reading.specs.Texts.{lines_of};
ghost use Rattle.report_reading.specs.Sections.{many_where};
ghost use Rattle.report_reading.specs.Faults.{certificate, finish, tail};
ghost use Rattle.report_reading.specs.Endings.{IsEnding};
ghost use Rattle.report_reading.specs.Listed.{ArePotentials, AreParts, AreShares};
ghost use Rattle.report_reading.specs.Parts.{numbers_with};
ghost use Rattle.report_reading.specs.Reading.{at_of, IsNumbered, Passes, PassesOn, Stops};

use crate::certs::{parts, potentials, shares};
use crate::fault::ReportFault;
use crate::place::Place;
use crate::single::{end_at, scale_at, unit_at};
use code_flow_system::Part;
use report_text::Share;
use std::alloc::Global;

/// A certificate's scale, its potentials, and its flow with its unit.
#[derive(Drop)]
pub struct Numbers {
    pub scale: u64,
    pub potentials: Vec<(u32, i128)>,
    pub unit: u64,
    pub parts: Vec<Part>,
}

// The listed moves, where there may be some.
#[tactic(auto, using(crate::proofs::CertParts::none_pass))]
fn parts_where<'a>(
    alloc: Global,
    may: bool,
    from: Place<'a>,
) -> Result<(Vec<Part>, Place<'a>), ReportFault>
    requires { IsNumbered (at_of from.number from.rest.now) }
    ensures ok { IfOk result (λ r. PassesOn (many_where may flow_rule (record { at = 0; number = 0 })) (at_of from.entry.number from.entry.rest.now) (at_of r.1.number r.1.rest.now) (map flow_line r.0.items)) }
    ensures form { IfOk result (λ r. AreParts r.0.items) }
    ensures none { may ≡ false → IfOk result (λ r. r.0.items ≡ []) }
    ensures err { IfErr result (Stops (many_where may flow_rule (record { at = 0; number = 0 }) from.entry.number (lines_of from.entry.rest.now))) }
{
    if !may {
        return Ok((Vec::new(alloc), from));
    }
    parts(alloc, from)
}

/// The lines of the certificate's other numbers, with a flow where the kind is greatest, and the
/// place behind them.
#[tactic(auto, using(crate::proofs::CertParts::certificate_passes, crate::proofs::CertParts::scale_stops, crate::proofs::CertParts::potentials_stop, crate::proofs::CertParts::unit_stops, crate::proofs::CertParts::parts_stop))]
pub fn numbers_at<'a>(
    alloc: Global,
    greatest: bool,
    from: Place<'a>,
) -> Result<(Numbers, Place<'a>), ReportFault>
    requires { IsNumbered (at_of from.number from.rest.now) }
    ensures ok { IfOk result (λ r. PassesOn (certificate greatest) (at_of from.entry.number from.entry.rest.now) (at_of r.1.number r.1.rest.now) (numbers_with r.0.scale r.0.potentials.items r.0.unit r.0.parts.items)) }
    ensures scale { IfOk result (λ r. (0 < r.0.scale) × (r.0.scale ≤ 2 ^ 48)) }
    ensures potentials { IfOk result (λ r. ArePotentials r.0.potentials.items) }
    ensures unit { IfOk result (λ r. IsUnit greatest r.0.unit) }
    ensures parts { IfOk result (λ r. AreParts r.0.parts.items) }
    ensures none { greatest ≡ false → IfOk result (λ r. r.0.parts.items ≡ []) }
    ensures err { IfErr result (Stops (certificate greatest from.entry.number (lines_of from.entry.rest.now))) }
{
    let (scale, at) = match scale_at(alloc, from) {
        Ok(found) => found,
        Err(fault) => return Err(fault),
    };
    let (potentials, at) = match potentials(alloc, at) {
        Ok(found) => found,
        Err(fault) => return Err(fault),
    };
    let (unit, at) = match unit_at(alloc, greatest, at) {
        Ok(found) => found,
        Err(fault) => return Err(fault),
    };
    let (parts, at) = match parts_where(alloc, greatest, at) {
        Ok(found) => found,
        Err(fault) => return Err(fault),
    };
    let read = Numbers {
        scale,
        potentials,
        unit,
        parts,
    };
    Ok((read, at))
}

// The shares, where there may be some.
#[tactic(auto, using(crate::proofs::CertParts::none_pass))]
fn shares_where<'a>(
    alloc: Global,
    may: bool,
    from: Place<'a>,
) -> Result<(Vec<Share>, Place<'a>), ReportFault>
    requires { IsNumbered (at_of from.number from.rest.now) }
    ensures ok { IfOk result (λ r. PassesOn (many_where may share_rule 0) (at_of from.entry.number from.entry.rest.now) (at_of r.1.number r.1.rest.now) (map share_line r.0.items)) }
    ensures form { IfOk result (λ r. AreShares r.0.items) }
    ensures none { may ≡ false → IfOk result (λ r. r.0.items ≡ []) }
    ensures err { IfErr result (Stops (many_where may share_rule 0 from.entry.number (lines_of from.entry.rest.now))) }
{
    if !may {
        return Ok((Vec::new(alloc), from));
    }
    shares(alloc, from)
}

// Nothing stands behind the last line.
#[tactic(auto, using(crate::proofs::CertParts::finish_passes, crate::proofs::CertParts::finish_fails))]
fn finish_at(at: Place) -> Result<(), ReportFault>
    requires { IsNumbered (at_of at.number at.rest.now) }
    ensures ok { IfOk result (λ _. (at.entry.rest.now ≡ []) × Passes finish (at_of at.entry.number at.entry.rest.now) tt (at_of at.entry.number at.entry.rest.now) []) }
    ensures err { IfErr result (Stops (finish at.entry.number (lines_of at.entry.rest.now))) }
{
    if at.rest.is_empty() {
        Ok(())
    } else {
        Err(ReportFault::Line { number: at.number })
    }
}

/// The lines of the shares and the last line, behind which nothing stands.
#[tactic(auto, using(crate::proofs::CertParts::tail_ends, crate::proofs::CertParts::shares_stop, crate::proofs::CertParts::end_stops, crate::proofs::CertParts::finish_stops))]
pub fn tail_at<'a>(
    alloc: Global,
    version: u8,
    greatest: bool,
    from: Place<'a>,
) -> Result<Vec<Share>, ReportFault>
    requires { IsNumbered (at_of from.number from.rest.now) }
    ensures ok { IfOk result (λ shares. IsEnding version greatest (at_of from.entry.number from.entry.rest.now) shares.items) }
    ensures form { IfOk result (λ shares. AreShares shares.items) }
    ensures none { ((version == 2) && greatest) ≡ false → IfOk result (λ shares. shares.items ≡ []) }
    ensures err { IfErr result (Stops (tail (record { version = version; greatest = greatest }) from.entry.number (lines_of from.entry.rest.now))) }
{
    let (shares, at) = match shares_where(alloc, version == 2 && greatest, from) {
        Ok(found) => found,
        Err(fault) => return Err(fault),
    };
    let at = match end_at(alloc, at) {
        Ok(at) => at,
        Err(fault) => return Err(fault),
    };
    match finish_at(at) {
        Ok(()) => Ok(shares),
        Err(fault) => Err(fault),
    }
}
