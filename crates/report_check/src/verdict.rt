// What a check comes to.

use dual_check::Row;
use elf_image::ElfFault;
use report_reading::ReportFault;

/// A bound that holds: each finished run of the image that keeps the report's claims takes at most
/// so many cycles.
#[derive(Clone, Copy)]
pub struct Checked {
    pub cycles: u64,
    /// Whether a flow of the image's system reaches it, but for a fraction of a cycle.
    pub greatest: bool,
}

/// What fails first.
#[derive(Clone, Copy)]
pub enum Cause {
    /// The bytes are no image.
    NoImage { fault: ElfFault },
    /// The text is no report.
    NoReport { fault: ReportFault },
    /// The first claim that is bad.
    BadClaim { index: u32 },
    /// The least reached address that is no code.
    NoCode { at: u32 },
    /// The first row of the certificate that fails.
    FailedRow { row: Row },
    /// The address at which the shares of the functions don't fit.
    FailedShare { at: u32 },
    /// Memory ran out.
    Memory,
}
