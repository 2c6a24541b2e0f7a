// The tokens of a source.
ghost use Rattle.std.specs.Prelude.{◌≡◌, ◌<◌, ◌≤◌, [], ◌∷◌, ◌++◌, length, IfOk, OnErr};
ghost use Rattle.wide_lexer.specs.Said.{AreTokens, HasForm};

use crate::token::Token;
use std::alloc::{AllocError, Global};
use std::marker::Model;

/// The tokens of a source, in order: at most 1,048,576, and each a span of its kind.
#[derive(Drop)]
pub struct Tokens<'a> {
    source: &'a [u8],
    list: Vec<Token>,
}

impl<'a> Model for Tokens<'a> {
    ghost use Rattle.wide_lexer.specs.Said.{AreTokens, TokenList};
    ghost use Rattle.std.specs.Prelude.{◌≤◌, length};

    ghost Value = { TokenList };

    ghost view = { λ t. record { source = t.source.now; list = t.list.items } };

    ghost invariant = { λ t. (length t.list.items ≤ 1048576) × AreTokens t.source.now t.list.items };
}

impl<'a> Tokens<'a> {
    /// No token yet.
    pub fn new(alloc: Global, source: &'a [u8]) -> Tokens<'a>
        ensures source { result.source ≡ source.entry.now }
        ensures list { result.list ≡ [] }
    {
        Tokens {
            source,
            list: Vec::new(alloc),
        }
    }

    /// One token more. Without memory the tokens are as before.
    pub fn push(&mut self, token: Token) -> Result<(), AllocError>
        requires formed { HasForm token.kind self.old.source token.at token.end }
        requires room { length self.old.list < 1048576 }
        ensures source { self.new.source ≡ self.old.source }
        ensures ok { IfOk result (λ _. self.new.list ≡ self.old.list ++ token ∷ []) }
        ensures err { OnErr result (self.new.list ≡ self.old.list) }
    {
        self.list.push(token)?;
        Ok(())
    }

    /// The source.
    pub fn source(&self) -> &'a [u8]
        ensures { result.now ≡ self.now.source }
    {
        self.source
    }

    /// The tokens, in order.
    pub fn list(&self) -> &[Token]
        ensures listed { result.now ≡ self.now.list }
        ensures most { length result.now ≤ 1048576 }
        ensures formed { AreTokens self.now.source result.now }
    {
        self.list.as_slice()
    }
}
