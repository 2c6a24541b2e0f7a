//! The lexer of wide C: from the bytes of a source to its tokens (C11 6.4).
//!
//! A source is cut as `c_lexer` cuts it. Of the pieces that the profile leaves outside, the keywords of wide C and strings are tokens here.
//! `specs/Cut` defines what a piece counts as and the cut, `Said` what a token says.
//!
//! Proved: [`lex`] answers the tokens of the cut that covers the source, or the place and the cause where the cut stops, exactly; want of
//! memory alone may come instead. [`one_cut`] is the law that a source has one cut, and so one list of tokens or one fault. Each token has
//! the form of its kind.
//!
//! This crate reads no token: what a constant or a pragma says is read where it is used.
#![tactic(auto)]

ghost use Rattle.std.specs.Prelude.{◌≡◌, ◌≢◌, ◌⊎◌, ℕ, List, MatchResult, ◌<◌, ◌≤◌, ◌^◌, ◌++◌, [], IfErr, IfOk, OnOk, length};
ghost use Rattle.wide_lexer.specs.Cut.{HasTokens, StopsAt, with_token};
ghost use Rattle.wide_lexer.specs.Said.{HasForm};

pub mod roles;
pub mod token;
pub mod tokens;

use c_lexer::{LexFault, piece_at};
use roles::{Role, role_of};
use std::alloc::{AllocError, Global};
use token::{Kind, Token};
use tokens::Tokens;

/// Keeps the token that a piece counts as, if it counts as one.
fn keep(tokens: &mut Tokens, role: Role, at: usize, end: usize) -> Result<(), AllocError>
    requires formed { (kind : Kind) → role ≡ Role.Token kind → HasForm kind tokens.old.source at end }
    requires room { length tokens.old.list < 1048576 }
    requires placed { at < 2 ^ 32 }
    requires ended { end < 2 ^ 32 }
    ensures source { tokens.new.source ≡ tokens.old.source }
    ensures ok { OnOk result (tokens.new.list ≡ tokens.old.list ++ with_token role at end []) }
{
    if let Role::Token(kind) = role {
        tokens.push(Token {
            kind,
            at: at as u32,
            end: end as u32,
        })?;
    }
    Ok(())
}

/// The tokens of a source of at most 1,048,576 bytes (C11 6.4).
///
/// # Errors
///
/// Where the cut stops: `Bad` if no piece begins there, and `Outside` if one begins that is outside wide C. `Memory` where memory runs out.
pub fn lex<'a>(alloc: Global, source: &'a [u8]) -> Result<Tokens<'a>, LexFault>
    requires { length source.now ≤ 1048576 }
    ensures ok { IfOk result (λ tokens. (tokens.source ≡ source.now) × HasTokens source.now tokens.list) }
    ensures err { IfErr result (λ fault. StopsAt fault source.now) }

    // Only for want of memory it answers otherwise than the source says.
    ensures accepts { (tokens : List Token) → HasTokens source.now tokens → IfErr result (λ fault. fault ≡ LexFault.Memory) }
    ensures refuses { (fault : LexFault) → StopsAt fault source.now → fault ≢ LexFault.Memory → MatchResult result (λ _. ⊥) (λ other. (other ≡ fault) ⊎ (other ≡ LexFault.Memory)) }
{
    let mut tokens = Tokens::new(alloc, source);
    let mut at = 0;
    let mut fresh = true;
    while at < source.len() {
        let Some(piece) = piece_at(source, at, fresh) else {
            return Err(LexFault::Bad { at: at as u32 });
        };
        let counts = role_of(source, at, piece);
        if counts.is_refused() {
            return Err(LexFault::Outside { at: at as u32 });
        }
        keep(&mut tokens, counts, at, piece.end)?;
        at = piece.end;
        fresh = piece.fresh;
    }
    Ok(tokens)
}

/// A source has one list of tokens, or one place and one cause where its cut stops.
pub fn one_cut()
    ensures tokens { (source : List ℕ) (tokens others : List Token) → HasTokens source tokens → HasTokens source others → tokens ≡ others }
    ensures apart { (source : List ℕ) (tokens : List Token) (fault : LexFault) → HasTokens source tokens → StopsAt fault source → fault ≡ LexFault.Memory }
    ensures faults { (source : List ℕ) (fault other : LexFault) → StopsAt fault source → StopsAt other source → fault ≢ LexFault.Memory → other ≢ LexFault.Memory → fault ≡ other }
{}
