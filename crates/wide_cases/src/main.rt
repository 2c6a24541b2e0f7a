//! Says what `wide_lexer` makes of each source of its input: a program for tests.
//!
//! Each line of the input is a source. The answer is its tokens, each with what it is: `profile`, `keyword` or `string`; or the byte where
//! the source has no token, and why. It was worked out by hand from `docs/LANGUAGE.md` and `docs/ORDINARY.md`.
#![tactic(auto)]

use c_lexer::LexFault;
use std::alloc::{AllocError, Global};
use std::io;
use wide_lexer::lex;
use wide_lexer::token::{Kind, Token};
use wide_lexer::tokens::Tokens;

// What a token is.
fn kind_name(kind: Kind) -> &'static str {
    match kind {
        Kind::Profile(_) => "profile",
        Kind::Keyword(_) => "keyword",
        Kind::Text => "string",
    }
}

// A token at the end of a line.
fn write_token(line: &mut String, source: &[u8], token: Token) -> Result<(), AllocError> {
    if !line.is_empty() {
        line.push(' ')?;
    }
    for i in token.at as usize..token.end as usize {
        if i < source.len() {
            line.push(char::from(source[i]))?;
        }
    }
    line.push('/')?;
    line.push_str(kind_name(token.kind))?;
    Ok(())
}

// The tokens as a line.
fn line_of(alloc: Global, tokens: &Tokens) -> Result<String, AllocError> {
    let mut line = String::new(alloc);
    for token in tokens.list() {
        write_token(&mut line, tokens.source(), *token)?;
    }
    Ok(line)
}

/// What is made of a source.
fn answer_to(alloc: Global, source: &str) -> Result<String, AllocError> {
    let bytes = source.as_bytes();
    if bytes.len() > 1048576 {
        return format!(in alloc; "too long");
    }
    match lex(alloc, bytes) {
        Ok(tokens) => line_of(alloc, &tokens),
        Err(LexFault::Bad { at }) => format!(in alloc; "bad at {at}"),
        Err(LexFault::Outside { at }) => format!(in alloc; "outside at {at}"),
        Err(LexFault::Memory) => Err(AllocError),
    }
}

fn main(rt: HostRuntime) -> io::Result<()> {
    for line in rt.lines(rt.alloc()) {
        let answer = answer_to(rt.alloc(), line?.as_str())?;
        println!(rt; "{answer}")?;
    }
    Ok(())
}
