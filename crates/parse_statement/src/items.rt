ghost use Rattle.std.specs.Prelude.{◌≤◌};
ghost use Rattle.c_tree.specs.Said as said;
ghost use Rattle.c_tree.specs.Said.{Plain};
ghost use Rattle.c_tree.specs.Tree.{AndLabel, Default, NoItem};
ghost use Rattle.parse_grammar.specs.Begun.{Among, Base, Defaults, InItems, Labels, OfSwitch, Wants};
ghost use Rattle.parse_grammar.specs.Machine.{Goes, among, begin_statement, brace, close, colon, file_item, item, label, specifier_of};
ghost use Rattle.parse_words.specs.Lexemes.{lexeme_of};
ghost use Rattle.parse_begun.specs.Depths.{braces_depth};
ghost use Rattle.parse_begun.specs.View.{Gives, Names, braces_of, externals_of, frames_of, item_parts_of, part_of};

use super::begins::begin_any_statement;
use c_tree::pragma::Pragma;
use c_tree::token::TokenKind;
use parse_begun::begun::{AtOperand, AtStatement, Braces, Frames, Purpose, Scope, Stack, State};
use parse_begun::list::{
    and_default, and_function, and_restricting, and_restriction, no_items, one_specifier,
};
use parse_begun::part::{ExternalParts, ItemParts, Part};
use parse_begun::refusal::Refusal;
use parse_nodes::statement::{block, switch};
use parse_operand::role::specifier_said;
use parse_words::{Lexeme, Word};
use std::alloc::Global;

/// The braces of a `switch` open.
pub fn open_choice(
    alloc: Global,
    lexeme: Lexeme,
    test: Part,
    at: u32,
    under: Box<Frames>,
) -> Result<State, Refusal>
    ensures { (f : Names) → Gives f result (brace (lexeme_of f lexeme) (Among NoItem (OfSwitch (part_of f test) at (frames_of f under.value)))) }
{
    match lexeme {
        Lexeme::Plain(TokenKind::LeftBrace) => {
            let braces = Braces::OfSwitch { test, at, under }.boxed(alloc)?;
            Ok(State::Among(no_items(alloc), braces))
        }
        _ => {
            test.let_go();
            Err(Frames::refuse(under))
        }
    }
}

/// The braces close.
#[tactic(auto, using(parse_begun::proofs::Deeper::frames_deeper))]
fn close_braces(braces: Braces, front: ItemParts) -> Result<State, Refusal>
    requires { braces_depth braces front.depth ≤ 256 }
    ensures { (f : Names) → Gives f result (Goes (close (braces_of f braces) (item_parts_of f front))) }
{
    match braces {
        Braces::OfBlock { at, under } => Ok(State::OfStatement(
            AtStatement::Stands(block(front, at)),
            under,
        )),
        Braces::OfSwitch { test, at, under } => {
            Ok(State::OfStatement(AtStatement::Stands(switch(test, front, at)), under))
        }
        Braces::OfFunction(header) => {
            let front = and_function(header, front)?;
            Ok(State::File(front))
        }
    }
}

/// A label with a value begins.
fn begin_case(braces: Box<Braces>, front: ItemParts, at: u32) -> Result<State, Refusal>
    ensures { (f : Names) → Gives f result (label (braces_of f braces.value) (Wants (Base (Labels (item_parts_of f front) (braces_of f braces.value) at)))) }
{
    match &*braces {
        Braces::OfSwitch { .. } => {
            let label = Purpose::Labels { front, braces, at };
            Ok(State::OfOperand(AtOperand::Wants, Stack::Base(label)))
        }
        _ => {
            front.let_go();
            Err(Braces::refuse(braces))
        }
    }
}

/// A `default` begins.
fn begin_default(braces: Box<Braces>, front: ItemParts, at: u32) -> Result<State, Refusal>
    ensures { (f : Names) → Gives f result (label (braces_of f braces.value) (Defaults (item_parts_of f front) (braces_of f braces.value) at)) }
{
    match &*braces {
        Braces::OfSwitch { .. } => Ok(State::Defaults { front, braces, at }),
        _ => {
            front.let_go();
            Err(Braces::refuse(braces))
        }
    }
}

/// The colon of a `default`.
pub fn end_default(
    lexeme: Lexeme,
    front: ItemParts,
    braces: Box<Braces>,
    at: u32,
) -> Result<State, Refusal>
    ensures { (f : Names) → Gives f result (colon (lexeme_of f lexeme) (Among (AndLabel (item_parts_of f front) (Default at)) (braces_of f braces.value))) }
{
    match lexeme {
        Lexeme::Plain(TokenKind::Colon) => match and_default(front, at) {
            Ok(front) => Ok(State::Among(front, braces)),
            Err(refusal) => {
                Braces::let_go(braces);
                Err(refusal)
            }
        },
        _ => {
            front.let_go();
            Err(Braces::refuse(braces))
        }
    }
}

/// A statement begins between braces.
fn begin_statement_item(
    alloc: Global,
    word: Word,
    front: ItemParts,
    braces: Box<Braces>,
) -> Result<State, Refusal>
    ensures { (f : Names) → Gives f result (begin_statement (lexeme_of f word.lexeme) word.at (InItems (item_parts_of f front) (braces_of f braces.value))) }
{
    let under = Frames::InItems(front, braces).boxed(alloc)?;
    begin_any_statement(alloc, word, under)
}

/// A keyword or punctuator between braces, where no declaration begins.
fn begin_plain_item(
    alloc: Global,
    kind: TokenKind,
    at: u32,
    front: ItemParts,
    braces: Box<Braces>,
) -> Result<State, Refusal>
    requires { braces_depth braces.value front.depth ≤ 256 }
    ensures { (f : Names) → Gives f result (item (Plain kind) at (item_parts_of f front) (braces_of f braces.value)) }
{
    match kind {
        TokenKind::RightBrace => close_braces(Box::into_inner(braces), front),
        TokenKind::Case => begin_case(braces, front, at),
        TokenKind::Default => begin_default(braces, front, at),
        _ => {
            let lexeme = Lexeme::Plain(kind);
            begin_statement_item(alloc, Word { lexeme, at }, front, braces)
        }
    }
}

/// A pragma between braces.
fn begin_noted_item(
    alloc: Global,
    kind: TokenKind,
    pragma: Pragma,
    front: ItemParts,
    braces: Box<Braces>,
) -> Result<State, Refusal>
    ensures { (f : Names) → Gives f result (item (said.Pragma kind pragma.text) pragma.at (item_parts_of f front) (braces_of f braces.value)) }
{
    match kind {
        TokenKind::FlowRestriction => match and_restriction(front, pragma) {
            Ok(front) => Ok(State::Among(front, braces)),
            Err(refusal) => {
                Braces::let_go(braces);
                Err(refusal)
            }
        },
        _ => {
            let Pragma { text, at } = pragma;
            let lexeme = Lexeme::Pragma(kind, text);
            begin_statement_item(alloc, Word { lexeme, at }, front, braces)
        }
    }
}

/// Between braces, where no declaration begins.
fn begin_item(
    alloc: Global,
    word: Word,
    front: ItemParts,
    braces: Box<Braces>,
) -> Result<State, Refusal>
    requires { braces_depth braces.value front.depth ≤ 256 }
    ensures { (f : Names) → Gives f result (item (lexeme_of f word.lexeme) word.at (item_parts_of f front) (braces_of f braces.value)) }
{
    let Word { lexeme, at } = word;
    match lexeme {
        Lexeme::Plain(kind) => begin_plain_item(alloc, kind, at, front, braces),
        Lexeme::Pragma(kind, text) => {
            begin_noted_item(alloc, kind, Pragma { text, at }, front, braces)
        }
        _ => begin_statement_item(alloc, Word { lexeme, at }, front, braces),
    }
}

/// Between braces.
pub fn go_on_among(
    alloc: Global,
    word: Word,
    front: ItemParts,
    braces: Box<Braces>,
) -> Result<State, Refusal>
    requires { braces_depth braces.value front.depth ≤ 256 }
    ensures { (f : Names) → Gives f result (among (specifier_of (lexeme_of f word.lexeme)) (lexeme_of f word.lexeme) word.at (item_parts_of f front) (braces_of f braces.value)) }
{
    match specifier_said(&word.lexeme) {
        Some(first) => match one_specifier(alloc, first) {
            Ok(specifiers) => Ok(State::Specified {
                specifiers,
                at: word.at,
                scope: Scope::AmongItems(front, braces),
            }),
            Err(refusal) => {
                front.let_go();
                Braces::let_go(braces);
                Err(refusal)
            }
        },
        None => begin_item(alloc, word, front, braces),
    }
}

/// A restriction at file level.
fn begin_restriction(word: Word, front: ExternalParts) -> Result<State, Refusal>
    ensures { (f : Names) → Gives f result (file_item None (lexeme_of f word.lexeme) word.at (externals_of f front)) }
{
    let Word { lexeme, at } = word;
    match lexeme {
        Lexeme::Pragma(TokenKind::FlowRestriction, text) => {
            let front = and_restricting(front, Pragma { text, at })?;
            Ok(State::File(front))
        }
        _ => {
            front.let_go();
            Err(Refusal::Syntax)
        }
    }
}

/// At file level.
pub fn go_on_at_file_level(
    alloc: Global,
    word: Word,
    front: ExternalParts,
) -> Result<State, Refusal>
    ensures { (f : Names) → Gives f result (file_item (specifier_of (lexeme_of f word.lexeme)) (lexeme_of f word.lexeme) word.at (externals_of f front)) }
{
    match specifier_said(&word.lexeme) {
        Some(first) => match one_specifier(alloc, first) {
            Ok(specifiers) => Ok(State::Specified {
                specifiers,
                at: word.at,
                scope: Scope::AtFile(front),
            }),
            Err(refusal) => {
                front.let_go();
                Err(refusal)
            }
        },
        None => begin_restriction(word, front),
    }
}
