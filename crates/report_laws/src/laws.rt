// Laws of texts.
ghost use Rattle.std.specs.Prelude.{◌≡◌};
ghost use Rattle.report_text.specs.Lines.{report_text};
ghost use Rattle.report_reading.specs.declared.fault.ReportFault.{ReportFault};
ghost use Rattle.report_reading.specs.Faults.{IsReportFault};

use crate::typed::is_typed;
use report_text::Report;

/// No line of a report's text fails.
pub fn no_fault(report: &Report)
    ensures { (fault : ReportFault) → IsReportFault (report_text report.now) fault → ⊥ }
{
    is_typed(report);
    let _facts = report.claims.facts();
}

/// One text belongs to one report.
pub fn one_report(report: &Report, other: &Report)
    ensures { report_text report.now ≡ report_text other.now → report.now ≡ other.now }
{
    is_typed(report);
    is_typed(other);
    let _facts = report.claims.facts();
    let _others = other.claims.facts();
}
