ghost use Rattle.std.specs.Prelude.{◌≡◌, ◌↔◌, IsTrue};
ghost use Rattle.c_tree.specs.Said.{Plain};
ghost use Rattle.parse_words.specs.Lexemes.{lexeme_of};
ghost use Rattle.parse_begun.specs.View.{Names};

use c_tree::token::TokenKind;
use parse_words::Lexeme;

/// Whether a token is this keyword or punctuator.
pub(crate) fn says(lexeme: &Lexeme, kind: TokenKind) -> bool
    ensures { (f : Names) → IsTrue result ↔ (lexeme_of f lexeme.now ≡ Plain kind) }
{
    match lexeme {
        Lexeme::Plain(said) => *said == kind,
        _ => false,
    }
}
