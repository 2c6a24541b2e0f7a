//! The lexer: from the bytes of a source to its tokens (C11 6.4).
//!
//! A source is cut into adjacent pieces, each the longest that begins at its place: white space, a
//! comment, a directive line, a pragma operator or one of C's preprocessing tokens. A piece is a token
//! of the language, is dropped, or is outside the language. `specs/` defines the forms of pieces, what
//! each counts as and the cut, without any order in which bytes are read.
//!
//! Proved: [`lex`] answers the tokens of the cut that covers the source, or the place and the cause
//! where the cut stops, exactly; want of memory alone may come instead. [`one_cut`] is the law that a
//! source has one cut, and so one list of tokens or one fault. Each token has the form of its kind, as
//! `c_tree` defines it. The time that it takes is only tested.
//!
//! This crate reads no token: it doesn't know the value of a constant beyond whether it has one, nor
//! what a pragma's text asks for.
#![tactic(auto)]

ghost use Rattle.std.specs.Prelude.{◌≡◌, ◌≢◌, ◌⊎◌, ℕ, List, MatchResult, ◌<◌, ◌≤◌, ◌^◌, ◌++◌, [], IfErr, IfOk, OnOk, length};
ghost use Rattle.c_lexer.specs.declared.LexFault.TheVariants.{Memory};
ghost use Rattle.c_lexer.specs.Cut.{with_token, HasTokens, StopsAt};
ghost use Rattle.c_tree.specs.Said.{IsToken};

mod bytes;
mod cut;
pub mod pieces;
mod pragmas;
mod scan;
mod texts;
mod words;

use c_tree::token::{Token, TokenKind};
use c_tree::tokens::Tokens;
pub use cut::piece_at;
use pieces::{Kind, Piece};
use std::alloc::{AllocError, Global};
use thiserror::Error;

/// Why a source has no tokens.
#[derive(Clone, Copy, Debug, Error)]
pub enum LexFault {
    /// No piece of C begins at this byte, counted from 0.
    #[error("bad at {at}")]
    Bad { at: u32 },
    /// A token or a directive of C that the language lacks begins at this byte.
    #[error("outside at {at}")]
    Outside { at: u32 },
    /// Memory ran out.
    #[error("out of memory")]
    Memory,
}

impl From<AllocError> for LexFault {
    ghost from_gives = { λ _ fault. fault ≡ Memory };

    fn from(_fault: AllocError) -> LexFault {
        LexFault::Memory
    }
}

/// Keeps the token that a piece is, if it is one.
fn keep(tokens: &mut Tokens, piece: Piece, at: usize) -> Result<(), AllocError>
    requires formed { (kind : TokenKind) → piece.kind ≡ Kind.Token kind → IsToken kind tokens.old.source at piece.end }
    requires room { length tokens.old.list < 1048576 }
    requires placed { at < 2 ^ 32 }
    requires ended { piece.end < 2 ^ 32 }
    ensures source { tokens.new.source ≡ tokens.old.source }
    ensures ok { OnOk result (tokens.new.list ≡ tokens.old.list ++ with_token piece.kind at piece.end []) }
{
    if let Kind::Token(kind) = piece.kind {
        tokens.push(Token {
            kind,
            at: at as u32,
            end: piece.end as u32,
        })?;
    }
    Ok(())
}

/// The tokens of a source of at most 1,048,576 bytes (C11 6.4).
///
/// The source is cut into adjacent pieces, each the longest that begins at its place. Of these the
/// tokens are kept; blanks, comments, line markers and the pragmas of other tools are dropped.
///
/// # Errors
///
/// Where the cut stops: `Bad` if no piece begins there, as at a quote that isn't closed on its line,
/// and `Outside` if one begins that is no token of the language. `Memory` where memory runs out.
pub fn lex<'a>(alloc: Global, source: &'a [u8]) -> Result<Tokens<'a>, LexFault>
    requires { length source.now ≤ 1048576 }
    ensures ok { IfOk result (λ tokens. (tokens.source ≡ source.now) × HasTokens source.now tokens.list) }
    ensures err { IfErr result (λ fault. StopsAt fault source.now) }

    // Only for want of memory it answers otherwise than the source says.
    ensures accepts { (tokens : List Token) → HasTokens source.now tokens → IfErr result (λ fault. fault ≡ LexFault.Memory) }
    ensures refuses { (fault : LexFault) → StopsAt fault source.now → fault ≢ LexFault.Memory → MatchResult result (λ _. ⊥) (λ other. (other ≡ fault) ⊎ (other ≡ LexFault.Memory)) }
{
    let mut tokens = Tokens::new(alloc, source);
    let mut at = 0;
    let mut fresh = true;
    while at < source.len() {
        let Some(piece) = piece_at(source, at, fresh) else {
            return Err(LexFault::Bad { at: at as u32 });
        };
        if piece.kind.is_outside() {
            return Err(LexFault::Outside { at: at as u32 });
        }
        keep(&mut tokens, piece, at)?;
        at = piece.end;
        fresh = piece.fresh;
    }
    Ok(tokens)
}

/// A source has one list of tokens, or one place and one cause where its cut stops.
pub fn one_cut()
    ensures tokens { (source : List ℕ) (tokens others : List Token) → HasTokens source tokens → HasTokens source others → tokens ≡ others }
    ensures apart { (source : List ℕ) (tokens : List Token) (fault : LexFault) → HasTokens source tokens → StopsAt fault source → fault ≡ LexFault.Memory }
    ensures faults { (source : List ℕ) (fault other : LexFault) → StopsAt fault source → StopsAt other source → fault ≢ LexFault.Memory → other ≢ LexFault.Memory → fault ≡ other }
{}
