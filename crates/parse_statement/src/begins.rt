ghost use Rattle.std.specs.Prelude.{◌≡◌, None};
ghost use Rattle.c_tree.specs.Said as said;
ghost use Rattle.c_tree.specs.Said.{Plain};
ghost use Rattle.parse_grammar.specs.Machine.{begin_loop, begin_statement};
ghost use Rattle.parse_words.specs.Lexemes.{lexeme_of};
ghost use Rattle.parse_begun.specs.View.{Gives, Names, frames_of};

use c_tree::pragma::Pragma;
use c_tree::statement::Statement;
use c_tree::token::TokenKind;
use parse_begun::begun::{AtStatement, Braces, Frames, Loop, Purpose, Stack, State, Test};
use parse_begun::list::no_items;
use parse_begun::refusal::Refusal;
use parse_nodes::statement::leaf;
use parse_operand::operand::begin_operand;
use parse_words::{Lexeme, Word};
use std::alloc::Global;
use wcc_base::Text;

/// A loop without a pragma.
fn unbounded(at: u32) -> Loop
    ensures bound { result.bound ≡ None }
    ensures at { result.at ≡ at }
{
    Loop { bound: None, at }
}

/// A keyword or punctuator begins a statement.
fn begin_plain_statement(
    alloc: Global,
    kind: TokenKind,
    at: u32,
    under: Box<Frames>,
) -> Result<State, Refusal>
    ensures { (f : Names) → Gives f result (begin_statement (Plain kind) at (frames_of f under.value)) }
{
    match kind {
        TokenKind::Semicolon => Ok(State::OfStatement(
            AtStatement::Stands(leaf(Statement::Empty { at })),
            under,
        )),
        TokenKind::LeftBrace => {
            let braces = Braces::OfBlock { at, under }.boxed(alloc)?;
            Ok(State::Among(no_items(alloc), braces))
        }
        TokenKind::If => Ok(State::Opens(Test::OfIf { at, under })),
        TokenKind::While => Ok(State::Opens(Test::OfWhile(unbounded(at), under))),
        TokenKind::Do => {
            let frame = Frames::InDo(unbounded(at), under).boxed(alloc)?;
            Ok(State::OfStatement(AtStatement::Begins, frame))
        }
        TokenKind::For => Ok(State::OfStatement(AtStatement::Loops(unbounded(at)), under)),
        TokenKind::Switch => Ok(State::Opens(Test::OfChoice { at, under })),
        TokenKind::Break => Ok(State::OfStatement(
            AtStatement::Closes(leaf(Statement::Break { at })),
            under,
        )),
        TokenKind::Continue => Ok(State::OfStatement(
            AtStatement::Closes(leaf(Statement::Continue { at })),
            under,
        )),
        TokenKind::Return => Ok(State::OfStatement(AtStatement::Answers { at }, under)),
        _ => {
            let lexeme = Lexeme::Plain(kind);
            let under = Stack::Base(Purpose::Evaluates(under));
            begin_operand(alloc, Word { lexeme, at }, under)
        }
    }
}

/// A pragma begins a statement.
fn begin_noted_statement(
    kind: TokenKind,
    text: Text,
    at: u32,
    under: Box<Frames>,
) -> Result<State, Refusal>
    ensures { (f : Names) → Gives f result (begin_statement (said.Pragma kind text) at (frames_of f under.value)) }
{
    match kind {
        TokenKind::Marker => Ok(State::OfStatement(
            AtStatement::Stands(leaf(Statement::Marker(Pragma { text, at }))),
            under,
        )),
        TokenKind::LoopBound => Ok(State::OfStatement(
            AtStatement::Bounded(Pragma { text, at }),
            under,
        )),
        _ => Err(Frames::refuse(under)),
    }
}

/// A statement begins.
pub fn begin_any_statement(alloc: Global, word: Word, under: Box<Frames>) -> Result<State, Refusal>
    ensures { (f : Names) → Gives f result (begin_statement (lexeme_of f word.lexeme) word.at (frames_of f under.value)) }
{
    let Word { lexeme, at } = word;
    match lexeme {
        Lexeme::Plain(kind) => begin_plain_statement(alloc, kind, at, under),
        Lexeme::Pragma(kind, text) => begin_noted_statement(kind, text, at, under),
        _ => {
            let under = Stack::Base(Purpose::Evaluates(under));
            begin_operand(alloc, Word { lexeme, at }, under)
        }
    }
}

/// A loop with a bound begins.
pub fn begin_bounded_loop(
    alloc: Global,
    word: Word,
    bound: Pragma,
    under: Box<Frames>,
) -> Result<State, Refusal>
    ensures { (f : Names) → Gives f result (begin_loop (lexeme_of f word.lexeme) word.at bound (frames_of f under.value)) }
{
    let head = Loop {
        bound: Some(bound),
        at: word.at,
    };
    match word.lexeme {
        Lexeme::Plain(TokenKind::While) => Ok(State::Opens(Test::OfWhile(head, under))),
        Lexeme::Plain(TokenKind::Do) => {
            let frame = Frames::InDo(head, under).boxed(alloc)?;
            Ok(State::OfStatement(AtStatement::Begins, frame))
        }
        Lexeme::Plain(TokenKind::For) => Ok(State::OfStatement(AtStatement::Loops(head), under)),
        _ => {
            head.let_go();
            Err(Frames::refuse(under))
        }
    }
}
