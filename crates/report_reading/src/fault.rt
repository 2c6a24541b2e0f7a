// Why a text is no report's.
use thiserror::Error;
use wcc_base::Memory;

/// Why a text is no report's: the first line that fails, which are counted from 1.
#[derive(Clone, Copy, Debug, Error)]
pub enum ReportFault {
    /// The line hasn't the form of a line that may stand there, or has no end; or it is missing, or
    /// stands behind the last one.
    #[error("line {number}: not the form or the order of a report")]
    Line { number: u32 },
    /// The line has form and order, and one of its numbers is out of its range.
    #[error("line {line}: a number is out of its range")]
    Number { line: u32 },
    /// Memory ran out.
    #[error("memory ran out")]
    Memory,
}

impl From<Memory> for ReportFault {
    ghost use Rattle.std.specs.Prelude.{◌≡◌};
    ghost use Rattle.report_reading.specs.declared.fault.ReportFault.TheVariants as Fault;

    ghost from_gives = { λ _ e. e ≡ Fault.Memory };

    fn from(_: Memory) -> Self {
        ReportFault::Memory
    }
}
