// Tokens of wide C.
use c_tree::token::TokenKind;
use wide_tree::word::Word;

/// The kind of a token: one of the profile, a keyword that the profile lacks, or a string (C11 6.4).
#[derive(Clone, Copy)]
pub enum Kind {
    Profile(TokenKind),
    Keyword(Word),
    Text,
}

/// A span of the source, from the byte `at` up to the byte `end`, and its kind.
#[derive(Clone, Copy)]
pub struct Token {
    pub kind: Kind,
    pub at: u32,
    pub end: u32,
}
