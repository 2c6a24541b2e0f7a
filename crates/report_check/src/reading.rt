// The report of a text.
ghost use Rattle.std.specs.Prelude.{All, IfOk, IfErr};
ghost use Rattle.code_flow_system.specs.Claims.{AreSums};
ghost use Rattle.report_text.specs.Forms.{IsReport};
ghost use Rattle.report_reading.specs.Reading.{StopsAt};
ghost use Rattle.report_laws.specs.Typed.{IsTyped};
ghost use Rattle.report_check.specs.Checks.{IsTextOf};

use report_laws::is_typed;
use report_reading::{ReportFault, read};
use report_text::Report;
use std::alloc::Global;

// A law: what each report keeps to.
fn is_report(report: &Report)
    ensures form { IsReport report.now }
    ensures typed { IsTyped report.now }
    ensures sums { All AreSums report.now.claims.facts }
{
    is_typed(report);
    let _facts = report.claims.facts();
}

/// Reads a report, of which it tells what each keeps to.
pub fn read_text(alloc: Global, text: &[u8]) -> Result<Report, ReportFault>
    ensures ok { IfOk result (IsTextOf text.now) }
    ensures err { IfErr result (StopsAt text.now) }
{
    match read(alloc, text) {
        Ok(report) => {
            is_report(&report);
            Ok(report)
        }
        Err(fault) => Err(fault),
    }
}
