ghost use Rattle.std.specs.Prelude.{◌≡◌, ◌≤◌, max};
ghost use Rattle.c_tree.specs.Tree.{AndStatement};
ghost use Rattle.parse_grammar.specs.Begun.{Begins, InDo, InElse};
ghost use Rattle.parse_grammar.specs.Machine.{Goes, among, settle, specifier_of};
ghost use Rattle.parse_words.specs.Lexemes.{lexeme_of};
ghost use Rattle.parse_begun.specs.Depths.{braces_depth, frames_depth};
ghost use Rattle.parse_begun.specs.View.{Gives, Names, braces_of, frames_of, item_parts_of, part_of, statement_part_of};

use super::items::go_on_among;
use super::said::says;
use c_tree::token::TokenKind;
use parse_begun::begun::{AtStatement, Braces, Frames, Loop, State, Test};
use parse_begun::list::and_statement;
use parse_begun::part::{ItemParts, Part, StatementPart};
use parse_begun::refusal::Refusal;
use parse_nodes::statement::{for_loop, if_else, if_then, while_loop};
use parse_words::{Lexeme, Word};
use std::alloc::Global;

/// A refusal, for which what stands there is let go.
fn without(under: Box<Frames>, refusal: Refusal) -> Refusal
    ensures { result ≡ refusal }
{
    Frames::let_go(under);
    refusal
}

/// Between braces, behind one statement more.
fn go_on_among_with(
    alloc: Global,
    braces: Box<Braces>,
    word: Word,
    front: ItemParts,
    statement: StatementPart,
) -> Result<State, Refusal>
    requires { braces_depth braces.value (max front.depth statement.depth) ≤ 256 }
    ensures { (f : Names) → Gives f result (among (specifier_of (lexeme_of f word.lexeme)) (lexeme_of f word.lexeme) word.at (AndStatement (item_parts_of f front) (statement_part_of f statement)) (braces_of f braces.value)) }
{
    match and_statement(front, statement) {
        Ok(front) => go_on_among(alloc, word, front, braces),
        Err(refusal) => {
            Braces::let_go(braces);
            Err(refusal)
        }
    }
}

/// Behind the body of a `do` its test must come.
fn test_behind(
    alloc: Global,
    word: Word,
    under: Box<Frames>,
    head: Loop,
    body: StatementPart,
) -> Result<State, Refusal>
    ensures { (f : Names) → Gives f result (settle (InDo head.bound head.at (frames_of f under.value)) (lexeme_of f word.lexeme) word.at (statement_part_of f body)) }
{
    match word.lexeme {
        Lexeme::Plain(TokenKind::While) => match body.boxed(alloc) {
            Ok(body) => Ok(State::Opens(Test::OfDo(head, body, under))),
            Err(refusal) => {
                head.let_go();
                Err(without(under, refusal))
            }
        },
        _ => {
            body.let_go();
            head.let_go();
            Err(Frames::refuse(under))
        }
    }
}

/// Behind the first branch of an `if` the second may come.
fn branch_behind(
    alloc: Global,
    under: Box<Frames>,
    test: Part,
    first: StatementPart,
    at: u32,
) -> Result<State, Refusal>
    ensures { (f : Names) → Gives f result (Goes (Begins (InElse (part_of f test) (statement_part_of f first) at (frames_of f under.value)))) }
{
    match first.boxed(alloc) {
        Ok(first) => {
            let frame = Frames::InElse {
                test,
                first,
                at,
                under,
            };
            let under = frame.boxed(alloc)?;
            Ok(State::OfStatement(AtStatement::Begins, under))
        }
        Err(refusal) => {
            test.let_go();
            Err(without(under, refusal))
        }
    }
}

/// A statement has ended, and what it ends goes on or ends with it.
///
/// Most statements stand between braces: they are spared the locals of [`settle_nested`], which are cleared
/// when it is entered.
#[cycle(settling)]
pub fn settle_statement(
    alloc: Global,
    under: Frames,
    word: Word,
    statement: StatementPart,
) -> Result<State, Refusal>
    requires { frames_depth under statement.depth ≤ 256 }
    ensures { (f : Names) → Gives f result (settle (frames_of f under) (lexeme_of f word.lexeme) word.at (statement_part_of f statement)) }
{
    match under {
        Frames::InItems(front, braces) => go_on_among_with(alloc, braces, word, front, statement),
        nested => settle_nested(alloc, nested, word, statement),
    }
}

/// A statement has ended that may stand in another one.
#[cycle(settling)]
#[tactic(auto, using(parse_begun::proofs::Deeper::frames_deeper))]
fn settle_nested(
    alloc: Global,
    under: Frames,
    word: Word,
    statement: StatementPart,
) -> Result<State, Refusal>
    requires { frames_depth under statement.depth ≤ 256 }
    ensures { (f : Names) → Gives f result (settle (frames_of f under) (lexeme_of f word.lexeme) word.at (statement_part_of f statement)) }
{
    match under {
        Frames::InItems(front, braces) => go_on_among_with(alloc, braces, word, front, statement),
        Frames::InThen {
            test,
            at,
            under: rest,
        } => {
            if says(&word.lexeme, TokenKind::Else) {
                return branch_behind(alloc, rest, test, statement, at);
            }
            match if_then(alloc, test, statement, at) {
                Ok(whole) => settle_statement(alloc, Box::into_inner(rest), word, whole),
                Err(refusal) => Err(without(rest, refusal)),
            }
        }
        Frames::InElse {
            test,
            first,
            at,
            under: rest,
        } => match if_else(alloc, test, Box::into_inner(first), statement, at) {
            Ok(whole) => settle_statement(alloc, Box::into_inner(rest), word, whole),
            Err(refusal) => Err(without(rest, refusal)),
        },
        Frames::InWhile(head, test, rest) => match while_loop(alloc, head, test, statement) {
            Ok(whole) => settle_statement(alloc, Box::into_inner(rest), word, whole),
            Err(refusal) => Err(without(rest, refusal)),
        },
        Frames::InDo(head, rest) => test_behind(alloc, word, rest, head, statement),
        Frames::InFor(head, rest) => match for_loop(alloc, Box::into_inner(head), statement) {
            Ok(whole) => settle_statement(alloc, Box::into_inner(rest), word, whole),
            Err(refusal) => Err(without(rest, refusal)),
        },
    }
}
