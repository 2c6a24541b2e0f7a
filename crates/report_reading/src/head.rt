// The first lines: the version, the cycles and the kind.
ghost use Rattle.std.specs.Prelude.{◌≡◌, ◌<◌, ◌⊎◌, ◌^◌, IfOk, IfErr};
ghost use Rattle.report_rules.specs.Heads.{is_greatest_kind};
ghost use Rattle.report_reading.specs.Texts.{lines_of};
ghost use Rattle.report_reading.specs.Faults.{head};
ghost use Rattle.report_reading.specs.Parts.{head_of};
ghost use Rattle.report_reading.specs.Reading.{at_of, IsNumbered, Passes, Stops};

use crate::fault::ReportFault;
use crate::place::Place;
use crate::single::{cycles_at, kind_at, version_at};
use code_flow_answer::Kind;
use std::alloc::Global;

/// What the first lines say.
#[derive(Clone, Copy)]
pub struct Head {
    pub version: u8,
    pub cycles: u64,
    pub kind: Kind,
}

/// The first lines, and the place behind them.
#[tactic(auto, using(crate::proofs::HeadParts::head_passes, crate::proofs::HeadParts::version_stops, crate::proofs::HeadParts::cycles_stops, crate::proofs::HeadParts::kind_stops))]
pub fn head_at<'a>(alloc: Global, from: Place<'a>) -> Result<(Head, Place<'a>), ReportFault>
    requires { IsNumbered (at_of from.number from.rest.now) }
    ensures ok { IfOk result (λ r. Passes head (at_of from.entry.number from.entry.rest.now) (record { version = r.0.version; greatest = is_greatest_kind r.0.kind }) (at_of r.1.number r.1.rest.now) (head_of r.0.version r.0.cycles r.0.kind)) }
    ensures known { IfOk result (λ r. (r.0.version ≡ 1) ⊎ (r.0.version ≡ 2)) }
    ensures range { IfOk result (λ r. r.0.cycles < 2 ^ 63) }
    ensures err { IfErr result (Stops (head from.entry.number (lines_of from.entry.rest.now))) }
{
    let (version, at) = match version_at(alloc, from) {
        Ok(found) => found,
        Err(fault) => return Err(fault),
    };
    let (cycles, at) = match cycles_at(alloc, at) {
        Ok(found) => found,
        Err(fault) => return Err(fault),
    };
    let (kind, at) = match kind_at(alloc, at) {
        Ok(found) => found,
        Err(fault) => return Err(fault),
    };
    Ok((
        Head {
            version,
            cycles,
            kind,
        },
        at,
    ))
}
