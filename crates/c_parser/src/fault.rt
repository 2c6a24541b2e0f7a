ghost use Rattle.std.specs.Prelude.{◌≡◌};
ghost use Rattle.c_parser.specs.declared.fault.ParseFault.TheVariants.{Memory};

use std::alloc::AllocError;
use thiserror::Error;

/// Why tokens were not parsed. The tokens are numbered from 0.
#[derive(Clone, Copy, Debug, Error)]
pub enum ParseFault {
    /// No well-formed unit's spelling begins with the tokens up to and including this one; or the
    /// number of all tokens, where they begin a spelling and are none.
    #[error("syntax at token {token}")]
    Syntax { token: u32 },
    /// Each well-formed unit whose spelling begins with the tokens up to and including this one is more
    /// than 256 nodes deep.
    #[error("too deep at token {token}")]
    Deep { token: u32 },
    /// Memory ran out.
    #[error("out of memory")]
    Memory,
}

impl From<AllocError> for ParseFault {
    ghost from_gives = { λ _ e. e ≡ Memory };

    fn from(_e: AllocError) -> ParseFault {
        ParseFault::Memory
    }
}
