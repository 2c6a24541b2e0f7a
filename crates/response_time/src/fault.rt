// Why a text is no list of tasks.
use thiserror::Error;
use wcc_base::Memory;

/// Why a text is no list of tasks: the first line that fails, which are counted from 1.
#[derive(Clone, Copy, Debug, Error)]
pub enum ListFault {
    /// The line hasn't the form of a task's line, or has no end, or its name stands in a line before
    /// it; or it is missing, or is the sixty-fifth.
    #[error("line {number}: not the form of a task")]
    Line { number: u32 },
    /// The line has the form, and its period is out of range.
    #[error("line {line}: the period is out of its range")]
    Number { line: u32 },
    /// Memory ran out.
    #[error("memory ran out")]
    Memory,
}

impl From<Memory> for ListFault {
    ghost use Rattle.std.specs.Prelude.{◌≡◌};
    ghost use Rattle.response_time.specs.declared.fault.ListFault.TheVariants as Fault;

    ghost from_gives = { λ _ e. e ≡ Fault.Memory };

    fn from(_: Memory) -> Self {
        ListFault::Memory
    }
}
