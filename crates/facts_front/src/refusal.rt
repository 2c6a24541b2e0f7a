// Why a source is refused.

use c_lexer::LexFault;
use c_parser::ParseFault;
use facts_definitions::FlowFault;
use types_calls::CallFault;
use types_rules::TypeFault;

/// Why a source has no program with facts: the fault of the first step that refuses it. Want of
/// memory is `Memory`, whichever step it was.
#[derive(Drop)]
pub enum Refusal {
    /// There are more than 1,048,576 bytes.
    TooLong,
    /// The bytes are no tokens.
    Lex(LexFault),
    /// The tokens are no spelling of a tree of at most 256 levels; `at` is the place of the token,
    /// or the source's length.
    Parse { fault: ParseFault, at: u32 },
    /// The tree fails a rule of types or passes a limit.
    Types(TypeFault),
    /// A function reaches itself; `at` is the place of its name in its definition.
    Calls { fault: CallFault, at: u32 },
    /// A pragma, a name in one or the bound of a loop is wrong, or the bounds allow too much.
    Flow(FlowFault),
    /// Memory ran out.
    Memory,
}
