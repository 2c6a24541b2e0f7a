ghost use Rattle.std.specs.Prelude.{◌≡◌, None};
ghost use Rattle.parse_grammar.specs.Begun.{Base, LoopStarts, Stands, Tests, Wants};
ghost use Rattle.parse_grammar.specs.Machine.{answers, loop_starts, loop_steps, loop_tests, paren, semicolon, specifier_of};
ghost use Rattle.parse_words.specs.Lexemes.{lexeme_of};
ghost use Rattle.parse_begun.specs.View.{Gives, Names, frames_of, maybe_of, start_part_of, statement_part_of, test_of};

use super::said::says;
use c_tree::statement::{ForStart, Statement};
use c_tree::token::TokenKind;
use parse_begun::begun::{
    AtOperand, AtStatement, Frames, Loop, Purpose, Scope, Stack, StartedFor, State, Test, TestedFor,
};
use parse_begun::list::one_specifier;
use parse_begun::part::{MaybePart, StartPart, StatementPart};
use parse_begun::refusal::Refusal;
use parse_nodes::statement::{begin_for_body, leaf};
use parse_operand::operand::begin_operand;
use parse_operand::role::specifier_said;
use parse_words::{Lexeme, Word};
use std::alloc::Global;

/// A semicolon ends a statement.
pub fn close_statement(
    lexeme: Lexeme,
    statement: StatementPart,
    under: Box<Frames>,
) -> Result<State, Refusal>
    ensures { (f : Names) → Gives f result (semicolon (lexeme_of f lexeme) (Stands (statement_part_of f statement) (frames_of f under.value))) }
{
    match lexeme {
        Lexeme::Plain(TokenKind::Semicolon) => Ok(State::OfStatement(
            AtStatement::Stands(statement),
            under,
        )),
        _ => {
            statement.let_go();
            Err(Frames::refuse(under))
        }
    }
}

/// The bracket of a test opens.
pub fn open_test(lexeme: Lexeme, test: Test) -> Result<State, Refusal>
    ensures { (f : Names) → Gives f result (paren (lexeme_of f lexeme) (Wants (Base (Tests (test_of f test))))) }
{
    match lexeme {
        Lexeme::Plain(TokenKind::LeftParen) => Ok(State::OfOperand(
            AtOperand::Wants,
            Stack::Base(Purpose::Tests(test)),
        )),
        _ => Err(test.refuse()),
    }
}

/// Behind `return`.
pub fn begin_answer(
    alloc: Global,
    word: Word,
    at: u32,
    under: Box<Frames>,
) -> Result<State, Refusal>
    ensures { (f : Names) → Gives f result (answers (lexeme_of f word.lexeme) word.at at (frames_of f under.value)) }
{
    if says(&word.lexeme, TokenKind::Semicolon) {
        let answer = leaf(Statement::Return { value: None, at });
        return Ok(State::OfStatement(AtStatement::Stands(answer), under));
    }
    begin_operand(alloc, word, Stack::Base(Purpose::Returns { at, under }))
}

/// The bracket of a `for` opens.
pub fn open_for(lexeme: Lexeme, head: Loop, under: Box<Frames>) -> Result<State, Refusal>
    ensures { (f : Names) → Gives f result (paren (lexeme_of f lexeme) (LoopStarts head.bound head.at (frames_of f under.value))) }
{
    match lexeme {
        Lexeme::Plain(TokenKind::LeftParen) => Ok(State::OfStatement(
            AtStatement::LoopStarts(head),
            under,
        )),
        _ => {
            head.let_go();
            Err(Frames::refuse(under))
        }
    }
}

/// Behind the bracket of a `for`, where no declaration begins.
fn begin_loop_value(
    alloc: Global,
    word: Word,
    head: Loop,
    under: Box<Frames>,
) -> Result<State, Refusal>
    ensures { (f : Names) → Gives f result (loop_starts None (lexeme_of f word.lexeme) word.at head.bound head.at (frames_of f under.value)) }
{
    if says(&word.lexeme, TokenKind::Semicolon) {
        let start = StartPart {
            start: ForStart::Absent,
            depth: 0,
        };
        return Ok(State::OfStatement(AtStatement::LoopTests(head.started(start)), under));
    }
    begin_operand(alloc, word, Stack::Base(Purpose::Starts(head, under)))
}

/// Behind the bracket of a `for`.
pub fn begin_loop_start(
    alloc: Global,
    word: Word,
    head: Loop,
    under: Box<Frames>,
) -> Result<State, Refusal>
    ensures { (f : Names) → Gives f result (loop_starts (specifier_of (lexeme_of f word.lexeme)) (lexeme_of f word.lexeme) word.at head.bound head.at (frames_of f under.value)) }
{
    match specifier_said(&word.lexeme) {
        Some(first) => match one_specifier(alloc, first) {
            Ok(specifiers) => Ok(State::Specified {
                specifiers,
                at: word.at,
                scope: Scope::AtFor(head, under),
            }),
            Err(refusal) => {
                head.let_go();
                Frames::let_go(under);
                Err(refusal)
            }
        },
        None => begin_loop_value(alloc, word, head, under),
    }
}

/// No expression in place of one that may be missing.
fn no_expression() -> MaybePart
    ensures { (f : Names) → maybe_of f result ≡ None }
{
    MaybePart {
        tree: None,
        depth: 0,
    }
}

/// Behind the first semicolon of a `for`.
pub fn begin_loop_test(
    alloc: Global,
    word: Word,
    head: StartedFor,
    under: Box<Frames>,
) -> Result<State, Refusal>
    ensures { (f : Names) → Gives f result (loop_tests (lexeme_of f word.lexeme) word.at head.bound (start_part_of f head.start) head.at (frames_of f under.value)) }
{
    if says(&word.lexeme, TokenKind::Semicolon) {
        return Ok(State::OfStatement(AtStatement::LoopSteps(head.tested(no_expression())), under));
    }
    match head.boxed(alloc) {
        Ok(head) => begin_operand(alloc, word, Stack::Base(Purpose::Guards(head, under))),
        Err(refusal) => {
            Frames::let_go(under);
            Err(refusal)
        }
    }
}

/// Behind the second semicolon of a `for`.
pub fn begin_loop_step(
    alloc: Global,
    word: Word,
    head: TestedFor,
    under: Box<Frames>,
) -> Result<State, Refusal>
    ensures { (f : Names) → Gives f result (loop_steps (lexeme_of f word.lexeme) word.at head.bound (start_part_of f head.start) (maybe_of f head.test) head.at (frames_of f under.value)) }
{
    if says(&word.lexeme, TokenKind::RightParen) {
        return begin_for_body(alloc, head.headed(no_expression()), under);
    }
    match head.boxed(alloc) {
        Ok(head) => begin_operand(alloc, word, Stack::Base(Purpose::Repeats(head, under))),
        Err(refusal) => {
            Frames::let_go(under);
            Err(refusal)
        }
    }
}
