// The command `report REPORT`.
ghost use Rattle.std.specs.Prelude.{◌≡◌, ◌⊎◌, MatchResult};
ghost use Rattle.wcc_base.specs.declared.status.Status.TheVariants as status;
ghost use Rattle.command_perform.specs.Ends.{IsEnd, IsRefusal};
ghost use Rattle.command_perform.specs.Reporting.{line_fault, fault_line, report_status, RefusesReport, MakesSummary};
ghost use Rattle.command_perform.specs.Outputs.{outputs_of};

use crate::make::Made;
use report_check::summarize_text;
use std::alloc::Global;
use wcc_base::{Items, Status};
use wcc_report::ReportFault;

// The code of a refusal of a report.
const NO_REPORT: u8 = 11;

fn refused(detail: u8, at: u32) -> Status
    ensures { result ≡ status.Refused 11 detail at }
{
    Status::Refused {
        code: NO_REPORT,
        detail,
        at,
    }
}

// The status of a text that is no report.
fn report_status(fault: ReportFault) -> Status
    ensures { result ≡ report_status fault }
{
    match fault {
        ReportFault::Line { number } => refused(1, number),
        ReportFault::Number { line } => refused(2, line),
        ReportFault::Memory => Status::Memory,
    }
}

/// The number of a fault of a report, and its line.
pub fn fault_of(fault: ReportFault) -> (u8, u32)
    ensures { result ≡ (line_fault fault, fault_line fault) }
{
    match fault {
        ReportFault::Line { number } => (1, number),
        ReportFault::Number { line } => (2, line),
        ReportFault::Memory => (3, 0),
    }
}

/// Says in a few lines what the report says.
#[tactic(auto, using(crate::proofs::CheckRuns::refuses_report))]
pub fn make_summary<'a>(alloc: Global, text: Items<u8>) -> Result<Made<'a>, Status>
    ensures { MatchResult result (λ m. IsEnd m.status × MakesSummary text (outputs_of m))
        (λ s. (s ≡ status.Memory) ⊎ (IsRefusal s × RefusesReport text s)) }
{
    match summarize_text(alloc, text.as_slice()) {
        Ok(lines) => Ok(Made {
            status: Status::Done,
            files: Vec::new(alloc),
            lines: Items::new(lines),
        }),
        Err(fault) => Err(report_status(fault)),
    }
}
