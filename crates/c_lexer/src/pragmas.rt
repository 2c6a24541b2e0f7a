// What a pragma counts as by its first word (C11 6.10.6, 6.10.9).
ghost use Rattle.std.specs.Prelude.{◌≡◌};
ghost use Rattle.c_lexer.specs.Kinds.{pragma_kind};

use crate::pieces::Kind;
use c_tree::token::TokenKind;
use parse_tokens::first_word;

/// What a pragma with this text is.
pub fn pragma_kind(text: &[u8]) -> Kind
    ensures { result ≡ pragma_kind text.now }
{
    let word = first_word(text);
    if word == b"loopbound".as_slice() {
        Kind::Token(TokenKind::LoopBound)
    } else if word == b"marker".as_slice() {
        Kind::Token(TokenKind::Marker)
    } else if word == b"flowrestriction".as_slice() {
        Kind::Token(TokenKind::FlowRestriction)
    } else {
        Kind::Dropped
    }
}
