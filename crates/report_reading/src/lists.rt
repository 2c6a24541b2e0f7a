// The lines of names and of columns.
ghost use Rattle.std.specs.Prelude.{map, IfOk, IfErr, All};
ghost use Rattle.report_text.specs.Forms.{IsCopyLine, IsColumn};
ghost use Rattle.report_text.specs.Lines.{copy_line, column_line};
ghost use Rattle.report_rules.specs.Heads.{copy_rule, column_rule};
ghost use Rattle.report_reading.specs.Texts.{lines_of};
ghost use Rattle.report_reading.specs.Sections.{many};
ghost use Rattle.report_reading.specs.Reading.{at_of, IsNumbered, PassesOn, Stops};

use crate::fault::ReportFault;
use crate::place::{Place, add, fault_at, next_line};
use code_flow_answer::Column;
use report_rules::{column, copy};
use report_text::CopyLine;
use std::alloc::Global;

/// The lines `copy` at a place, and the place behind them.
#[tactic(auto, using(crate::proofs::PassLemmas::begins_passing, crate::proofs::PassLemmas::stops_memory, crate::proofs::PassLemmas::next_shorter, crate::proofs::OrderLemmas::nothing_ordered))]
pub fn names<'a>(alloc: Global, from: Place<'a>) -> Result<(Vec<CopyLine>, Place<'a>), ReportFault>
    requires { IsNumbered (at_of from.number from.rest.now) }
    ensures ok { IfOk result (λ r. PassesOn (many copy_rule tt) (at_of from.entry.number from.entry.rest.now) (at_of r.1.number r.1.rest.now) (map copy_line r.0.items)) }
    ensures form { IfOk result (λ r. All IsCopyLine r.0.items) }
    ensures err { IfErr result (Stops (many copy_rule tt from.entry.number (lines_of from.entry.rest.now))) }
{
    let mut names = Vec::new(alloc);
    let mut at = from;
    'lines: while let Some(line) = next_line(alloc, at, b"copy")? {
        match copy(alloc, line.words()) {
            Ok(name) => {
                add(&mut names, name)?;
                at = line.after;
            }
            Err(flaw) => return Err(fault_at(at.number, flaw)),
        }
    }
    Ok((names, at))
}

/// The lines `column` at a place, each with a total for each fact, and the place behind them.
#[tactic(auto, using(crate::proofs::PassLemmas::begins_passing, crate::proofs::PassLemmas::stops_memory, crate::proofs::PassLemmas::next_shorter, crate::proofs::OrderLemmas::nothing_ordered))]
pub fn columns<'a>(
    alloc: Global,
    facts: usize,
    from: Place<'a>,
) -> Result<(Vec<Column>, Place<'a>), ReportFault>
    requires { IsNumbered (at_of from.number from.rest.now) }
    ensures ok { IfOk result (λ r. PassesOn (many column_rule facts) (at_of from.entry.number from.entry.rest.now) (at_of r.1.number r.1.rest.now) (map column_line r.0.items)) }
    ensures form { IfOk result (λ r. All (IsColumn facts) r.0.items) }
    ensures err { IfErr result (Stops (many column_rule facts from.entry.number (lines_of from.entry.rest.now))) }
{
    let mut columns = Vec::new(alloc);
    let mut at = from;
    'lines: while let Some(line) = next_line(alloc, at, b"column")? {
        match column(alloc, facts, line.words()) {
            Ok(found) => {
                add(&mut columns, found)?;
                at = line.after;
            }
            Err(flaw) => return Err(fault_at(at.number, flaw)),
        }
    }
    Ok((columns, at))
}
