// Why there is nothing to say of a source.
use std::io;
use thiserror::Error;
use wcc_base::Memory;

/// Why there is nothing to say of a source.
#[derive(Debug, Drop, Error)]
pub enum Fault {
    /// The words are no command; these are.
    #[error("usage: {0}")]
    Usage(&'static str),
    #[error("a file can't be read, or a line can't be printed")]
    Files,
    #[error("refused")]
    Refused,
    /// A program of a source can't be tried, for this cause.
    #[error("{0}")]
    Untried(&'static str),
    #[error("out of memory")]
    Memory,
}

impl From<io::Error> for Fault {
    ghost use Rattle.std.specs.Prelude.{◌≡◌};
    ghost use Rattle.try_sources.specs.declared.fault.Fault.TheVariants as Fault;

    ghost from_gives = { λ _ e. e ≡ Fault.Files };

    fn from(error: io::Error) -> Self {
        drop(error);
        Fault::Files
    }
}

impl From<Memory> for Fault {
    ghost use Rattle.std.specs.Prelude.{◌≡◌};
    ghost use Rattle.try_sources.specs.declared.fault.Fault.TheVariants as Fault;

    ghost from_gives = { λ _ e. e ≡ Fault.Memory };

    fn from(_: Memory) -> Self {
        Fault::Memory
    }
}
