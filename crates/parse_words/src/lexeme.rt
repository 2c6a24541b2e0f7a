use c_tree::expression::NameId;
use c_tree::token::{Constant, TokenKind};
use wcc_base::Text;

/// What a token says, a name by its number.
#[derive(Drop)]
pub enum Lexeme {
    Plain(TokenKind),
    Name(NameId),
    Integer(Constant),
    Character(u8),
    Pragma(TokenKind, Text),
}

/// What a token says, and its place.
#[derive(Drop)]
pub struct Word {
    pub lexeme: Lexeme,
    pub at: u32,
}
