// The words of a source.
ghost use Rattle.std.specs.Prelude.{◌≡◌, ◌<◌, ◌≤◌, ℕ, List, [], ◌∷◌, ◌++◌, map, length, IfOk, OnOk};
ghost use Rattle.c_tree.specs.Names.{name_of, names_of_tokens, names_said, with_names, AreDistinct, AreNames};
ghost use Rattle.c_tree.specs.Pragmas.{names_in};
ghost use Rattle.c_tree.specs.Said.{said, IsToken};
ghost use Rattle.c_tree.specs.Spelling.{spoken, Spoken};
ghost use Rattle.parse_words.specs.Lexemes.{lexeme_of, word_said};
ghost use Rattle.parse_words.specs.Words.{AreNumbered, IsNumbered, Tell};

use crate::lexeme::{Lexeme, Word};
use crate::numbering::{Numbering, number_text};
use c_tree::token::{Token, TokenKind};
use c_tree::tokens::Tokens;
use parse_tokens::{character, integer, text};
use std::alloc::{AllocError, Global};
use wcc_base::Text;

/// What the tokens of a source say, in order, and the names that stand in them, each once.
#[derive(Drop)]
pub struct Words {
    pub list: Vec<Word>,
    pub names: Vec<Text>,
}

/// A pragma of this kind and text.
fn pragma(alloc: Global, kind: TokenKind, text: &[u8]) -> Result<Lexeme, AllocError>
    ensures { IfOk result (λ lexeme. lexeme ≡ Lexeme.Pragma kind text.now) }
{
    Ok(Lexeme::Pragma(kind, Text::new(text.to_vec(alloc)?)))
}

/// A marker or a restriction, whose names are numbered too.
fn naming_pragma<'a>(
    alloc: Global,
    kind: TokenKind,
    text: &'a [u8],
    names: &mut Numbering<'a>,
) -> Result<Lexeme, AllocError>
    ensures names { OnOk result (names.new ≡ with_names names.old (names_in text.now)) }
    ensures said { IfOk result (λ lexeme. lexeme ≡ Lexeme.Pragma kind text.now) }
{
    number_text(names, text)?;
    pragma(alloc, kind, text)
}

/// What a token says.
fn lexeme<'a>(
    alloc: Global,
    source: &'a [u8],
    token: Token,
    names: &mut Numbering<'a>,
) -> Result<Lexeme, AllocError>
    requires { IsToken token.kind source.now token.at token.end }
    ensures said { IfOk result (λ lexeme. (more : List (List ℕ)) → lexeme_of (name_of (names.new ++ more)) lexeme ≡ said source.now token) }
    ensures names { OnOk result (names.new ≡ with_names names.old (names_said (said source.now token))) }
    ensures numbered { IfOk result (λ lexeme. IsNumbered (length names.new) lexeme) }
{
    let at = token.at as usize;
    let end = token.end as usize;
    match token.kind {
        TokenKind::Name => {
            let name = names.number(&source[at..end])?;
            Ok(Lexeme::Name(name))
        }
        TokenKind::Number => Ok(Lexeme::Integer(integer(source, at, end))),
        TokenKind::Character => Ok(Lexeme::Character(character(source, at, end - 1))),
        TokenKind::LoopBound => pragma(alloc, token.kind, text(source, at, end)),
        TokenKind::Marker | TokenKind::FlowRestriction => {
            naming_pragma(alloc, token.kind, text(source, at, end), names)
        }
        kind => Ok(Lexeme::Plain(kind)),
    }
}

/// One word more.
fn say<'a>(
    alloc: Global,
    source: &'a [u8],
    token: Token,
    names: &mut Numbering<'a>,
    list: &mut Vec<Word>,
) -> Result<(), AllocError>
    requires { IsToken token.kind source.now token.at token.end }
    ensures { OnOk result ((front : List Spoken) → Tell list.old.items names.old front → Tell list.new.items names.new (front ++ record { said = said source.now token; at = token.at } ∷ [])) }
{
    let lexeme = lexeme(alloc, source, token, names)?;
    list.push(Word {
        lexeme,
        at: token.at,
    })?;
    Ok(())
}

/// What the tokens say. The only error is want of memory.
pub fn read_words(alloc: Global, tokens: &Tokens) -> Result<Words, AllocError>
    ensures said { IfOk result (λ w. map (word_said (name_of w.names.items)) w.list.items ≡ spoken tokens.now) }
    ensures few { IfOk result (λ w. length w.list.items ≤ 1048576) }
    ensures numbered { IfOk result (λ w. AreNumbered (length w.names.items) w.list.items) }
    ensures names { IfOk result (λ w. w.names.items ≡ names_of_tokens (spoken tokens.now)) }
    ensures distinct { IfOk result (λ w. AreDistinct w.names.items) }
    ensures formed { IfOk result (λ w. AreNames w.names.items) }
{
    let source = tokens.source();
    let spans = tokens.list();
    let mut names = Numbering::new(alloc);
    let mut list = Vec::with_capacity(alloc, spans.len())?;
    for i in 0..spans.len() {
        say(alloc, source, spans[i], &mut names, &mut list)?;
    }
    let names = names.names(alloc)?;
    Ok(Words { list, names })
}
