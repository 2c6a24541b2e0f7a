// How a call of the compiler ends.
ghost use Rattle.std.specs.Prelude.{◌≡◌};

use crate::Bound;

/// How a call of the compiler ends.
#[derive(Clone, Copy, Debug, PartialEq, Eq)]
pub enum Status {
    /// All that was asked for was done.
    Done,
    /// An input is wrong: which kind of fault, its detail, and its place.
    Refused {
        code: u8,
        detail: u8,
        at: u32,
    },
    /// The words are not those of a command.
    Usage,
    /// A quantity passes its limit.
    Limit {
        which: Bound,
        found: u64,
    },
    /// A file could not be read.
    ReadFault,
    /// A file or the printed line could not be written.
    WriteFault,
    /// Memory ran out.
    Memory,
    /// The checker says no: the row that failed, its detail, and its place.
    No {
        code: u8,
        detail: u8,
        at: u32,
    },
    /// A run stopped before its end: why, the detail, the place, and the cycles so far.
    Stopped {
        kind: u8,
        code: u8,
        at: u32,
        cycles: u64,
    },
}

impl Status {
    ghost use Rattle.wcc_base.specs.StatusCode.{code_of};

    /// The exit status of the process.
    pub fn code(&self) -> u8
        ensures { result ≡ code_of self.now }
    {
        match self {
            Status::Done => 0,
            Status::Refused { .. } => 1,
            Status::Usage => 2,
            Status::Limit { .. } => 3,
            Status::ReadFault => 4,
            Status::WriteFault => 5,
            Status::Memory => 6,
            Status::No { .. } => 7,
            Status::Stopped { .. } => 8,
        }
    }
}
