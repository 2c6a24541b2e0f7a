// The claims with their multipliers, and the names and columns around them.
ghost use Rattle.std.specs.Prelude.{◌++◌, map, length, IfOk, IfErr, All};
ghost use Rattle.report_text.specs.Forms.{IsCopyLine, IsColumn};
ghost use Rattle.report_text.specs.Lines.{copy_line, column_line};
ghost use Rattle.report_reading.specs.Texts.{lines_of};
ghost use Rattle.report_reading.specs.Faults.{claims, middle};
ghost use Rattle.report_reading.specs.Parts.{claims_with, AreMultiplied};
ghost use Rattle.report_reading.specs.Reading.{at_of, IsNumbered, Passes, PassesOn, Stops};

use crate::claims::{exits, facts, loops, nevers, regions};
use crate::fault::ReportFault;
use crate::lists::{columns, names};
use crate::place::Place;
use code_flow_answer::Column;
use code_flow_system::Claims;
use report_text::CopyLine;
use std::alloc::Global;

/// Claims, with a multiplier for each never claim and fact, and two for each loop.
#[derive(Drop)]
pub struct Multiplied {
    pub claims: Claims,
    pub nevers: Vec<i128>,
    pub loops: Vec<(i128, i128)>,
    pub facts: Vec<i128>,
}

/// The lines of the claims, and the place behind them.
#[tactic(auto, using(crate::proofs::ClaimParts::claims_pass, crate::proofs::ClaimParts::few_claims, crate::proofs::ClaimParts::exits_stop, crate::proofs::ClaimParts::nevers_stop, crate::proofs::ClaimParts::regions_stop, crate::proofs::ClaimParts::loops_stop, crate::proofs::ClaimParts::facts_stop))]
pub fn claims_at<'a>(alloc: Global, from: Place<'a>) -> Result<(Multiplied, Place<'a>), ReportFault>
    requires { IsNumbered (at_of from.number from.rest.now) }
    ensures ok { IfOk result (λ r. Passes claims (at_of from.entry.number from.entry.rest.now) (length r.0.claims.facts) (at_of r.1.number r.1.rest.now) (claims_with r.0.claims r.0.nevers.items r.0.loops.items r.0.facts.items)) }
    ensures form { IfOk result (λ r. AreMultiplied r.0.claims r.0.nevers.items r.0.loops.items r.0.facts.items) }
    ensures err { IfErr result (Stops (claims from.entry.number (lines_of from.entry.rest.now))) }
{
    let (exits, at) = match exits(alloc, from) {
        Ok(found) => found,
        Err(fault) => return Err(fault),
    };
    let (nevers, never_by, at) = match nevers(alloc, at) {
        Ok(found) => found,
        Err(fault) => return Err(fault),
    };
    let (regions, at) = match regions(alloc, at) {
        Ok(found) => found,
        Err(fault) => return Err(fault),
    };
    let (loops, loop_by, at) = match loops(alloc, at) {
        Ok(found) => found,
        Err(fault) => return Err(fault),
    };
    let (facts, fact_by, at) = match facts(alloc, at) {
        Ok(found) => found,
        Err(fault) => return Err(fault),
    };
    let claims = Claims::new(exits, nevers, regions, loops, facts);
    let read = Multiplied {
        claims,
        nevers: never_by,
        loops: loop_by,
        facts: fact_by,
    };
    Ok((read, at))
}

/// The lines of the names, the claims and the columns.
#[derive(Drop)]
pub struct Middle {
    pub names: Vec<CopyLine>,
    pub multiplied: Multiplied,
    pub columns: Vec<Column>,
}

/// The lines of the names, the claims and the columns, and the place behind them.
#[tactic(auto, using(crate::proofs::ClaimParts::middle_passes, crate::proofs::ClaimParts::names_stop, crate::proofs::ClaimParts::claims_stop, crate::proofs::ClaimParts::columns_stop))]
pub fn middle_at<'a>(alloc: Global, from: Place<'a>) -> Result<(Middle, Place<'a>), ReportFault>
    requires { IsNumbered (at_of from.number from.rest.now) }
    ensures ok { IfOk result (λ r. PassesOn middle (at_of from.entry.number from.entry.rest.now) (at_of r.1.number r.1.rest.now)
        (map copy_line r.0.names.items ++ (claims_with r.0.multiplied.claims r.0.multiplied.nevers.items r.0.multiplied.loops.items r.0.multiplied.facts.items ++ map column_line r.0.columns.items))) }
    ensures names { IfOk result (λ r. All IsCopyLine r.0.names.items) }
    ensures claims { IfOk result (λ r. AreMultiplied r.0.multiplied.claims r.0.multiplied.nevers.items r.0.multiplied.loops.items r.0.multiplied.facts.items) }
    ensures columns { IfOk result (λ r. All (IsColumn (length r.0.multiplied.claims.facts)) r.0.columns.items) }
    ensures err { IfErr result (Stops (middle from.entry.number (lines_of from.entry.rest.now))) }
{
    let (names, at) = match names(alloc, from) {
        Ok(found) => found,
        Err(fault) => return Err(fault),
    };
    let (multiplied, at) = match claims_at(alloc, at) {
        Ok(found) => found,
        Err(fault) => {
            drop(names);
            return Err(fault);
        }
    };
    let facts = multiplied.claims.facts().len();
    match columns(alloc, facts, at) {
        Ok((columns, at)) => {
            let read = Middle {
                names,
                multiplied,
                columns,
            };
            Ok((read, at))
        }
        Err(fault) => {
            drop(names);
            drop(multiplied);
            Err(fault)
        }
    }
}
