// Pieces of a source.
ghost use Rattle.std.specs.Prelude.{◌≡◌, ◌↔◌, IsTrue};

use c_tree::token::TokenKind;

/// The form of a piece: white space, a comment, a directive or a preprocessing token (C11 6.4).
#[derive(Clone, Copy)]
pub enum Form {
    Blank,
    Comment,
    Directive,
    Operator,
    Word,
    Number,
    Character,
    String,
    PrefixedQuote,
    Punctuator,
}

/// What a piece counts as.
#[derive(Clone, Copy)]
pub enum Kind {
    Blank,
    Comment,
    Dropped,
    Outside,
    Token(TokenKind),
}

impl Kind {
    pub fn is_outside(self) -> bool
        ensures { IsTrue result ↔ (self ≡ Kind.Outside) }
    {
        matches!(self, Kind::Outside)
    }
}

/// A piece of a source.
#[derive(Clone, Copy)]
pub struct Piece {
    pub form: Form,
    pub kind: Kind,
    /// The place behind its last byte.
    pub end: usize,
    /// Whether nothing but blanks and comments stands before that place on its line.
    pub fresh: bool,
}
