// What pieces count as in wide C.
ghost use Rattle.std.specs.Prelude.{◌≡◌, ◌↔◌, ◌≤◌, IsTrue, length, map};
ghost use Rattle.wide_tree.specs.Words.{find_word};
ghost use Rattle.wide_lexer.specs.Cut.{outside_role, role_of, word_role};

use crate::token::Kind;
use c_lexer::pieces::{Form, Kind as PieceKind, Piece};
use wide_tree::word::Word;

/// What a piece counts as: a token, white space or a dropped line, or a piece that is outside wide C.
#[derive(Clone, Copy)]
pub enum Role {
    Token(Kind),
    Dropped,
    Refused,
}

impl Role {
    pub fn is_refused(self) -> bool
        ensures { IsTrue result ↔ (self ≡ Role.Refused) }
    {
        matches!(self, Role::Refused)
    }
}

/// The keywords that the profile lacks.
const KEYWORDS: [(&[u8], Word); 9] = [
    (b"_Alignof", Word::Alignof),
    (b"auto", Word::Auto),
    (b"enum", Word::Enum),
    (b"_Noreturn", Word::Noreturn),
    (b"register", Word::Register),
    (b"sizeof", Word::Sizeof),
    (b"_Static_assert", Word::StaticAssert),
    (b"typedef", Word::Typedef),
    (b"volatile", Word::Volatile),
];

/// The keyword that the bytes spell.
fn find_word(bytes: &[u8], spellings: &[(&[u8], Word)]) -> Option<Word>
    ensures { result ≡ find_word bytes.now (map (λ row. (row.0.now, row.1)) spellings.now) }
{
    for (text, word) in spellings {
        if bytes == *text {
            return Some(*word);
        }
    }
    None
}

/// What a word counts as that is no word of the profile.
fn word_role(bytes: &[u8]) -> Role
    ensures { result ≡ word_role bytes.now }
{
    match find_word(bytes, &KEYWORDS) {
        Some(word) => Role::Token(Kind::Keyword(word)),
        None => Role::Refused,
    }
}

/// What a piece counts as that the profile leaves outside.
fn outside_role(source: &[u8], at: usize, piece: Piece) -> Role
    requires ordered { at ≤ piece.end }
    requires within { piece.end ≤ length source.now }
    ensures { result ≡ outside_role piece.form source.now at piece.end }
{
    match piece.form {
        Form::Word => word_role(&source[at..piece.end]),
        Form::String => Role::Token(Kind::Text),
        _ => Role::Refused,
    }
}

/// What a piece counts as that stands there.
pub fn role_of(source: &[u8], at: usize, piece: Piece) -> Role
    requires ordered { at ≤ piece.end }
    requires within { piece.end ≤ length source.now }
    ensures { result ≡ role_of piece.kind piece.form source.now at piece.end }
{
    match piece.kind {
        PieceKind::Token(kind) => Role::Token(Kind::Profile(kind)),
        PieceKind::Outside => outside_role(source, at, piece),
        PieceKind::Blank => Role::Dropped,
        PieceKind::Comment => Role::Dropped,
        PieceKind::Dropped => Role::Dropped,
    }
}
