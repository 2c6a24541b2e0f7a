// What a fault below comes to as a cause.
ghost use Rattle.std.specs.Prelude.{◌≡◌};
ghost use Rattle.report_check.specs.Causes.{image_cause, report_cause, code_cause};

use crate::verdict::Cause;
use code_flow::CodeFault;
use elf_image::ElfFault;
use report_reading::ReportFault;

pub fn image_cause(fault: ElfFault) -> Cause
    ensures { result ≡ image_cause fault }
{
    match fault {
        ElfFault::NotElf => Cause::NoImage { fault },
        ElfFault::WrongMachine => Cause::NoImage { fault },
        ElfFault::BadSegment { .. } => Cause::NoImage { fault },
        ElfFault::Memory => Cause::Memory,
    }
}

pub fn report_cause(fault: ReportFault) -> Cause
    ensures { result ≡ report_cause fault }
{
    match fault {
        ReportFault::Line { .. } => Cause::NoReport { fault },
        ReportFault::Number { .. } => Cause::NoReport { fault },
        ReportFault::Memory => Cause::Memory,
    }
}

pub fn code_cause(fault: CodeFault) -> Cause
    ensures { result ≡ code_cause fault }
{
    match fault {
        CodeFault::BadClaim { index } => Cause::BadClaim { index },
        CodeFault::NotCode { at } => Cause::NoCode { at },
        CodeFault::Memory => Cause::Memory,
    }
}
