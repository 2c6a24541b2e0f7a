ghost use Rattle.std.specs.Prelude.{◌≡◌, ◌≤◌, IfErr, IfNone, IfOk, IfSome};
ghost use Rattle.parse_grammar.specs.Begun.{InCall};
ghost use Rattle.parse_grammar.specs.Machine.{called, cast_ends, go_on, opened, role, specifier_of, typed};
ghost use Rattle.c_tree.specs.Said.{Plain};
ghost use Rattle.c_tree.specs.Tree.{NoExpr};
ghost use Rattle.parse_begun.specs.Depths.{stack_depth};
ghost use Rattle.parse_begun.specs.View.{Gives, Names, part_of, stack_of};
ghost use Rattle.parse_begun.specs.declared.refusal.Refusal.TheVariants.{Memory};
ghost use Rattle.parse_ending.specs.Words.{IsWord};
ghost use Rattle.parse_words.specs.Lexemes.{lexeme_of};

use super::leave::go_on_with;
use c_tree::expression::Specifier;
use c_tree::token::TokenKind;
use parse_begun::begun::{AtOperand, NameAt, Stack, State};
use parse_begun::list::{and_specifier, no_parts, one_specifier};
use parse_begun::part::Part;
use parse_begun::refusal::Refusal;
use parse_nodes::expression::call_of_none;
use parse_operand::operand::begin_operand;
use parse_operand::role::{role_of, specifier_said};
use parse_words::{Lexeme, Word};
use std::alloc::Global;

/// Behind an opening round bracket a type or an operand begins.
pub fn begin_bracket(alloc: Global, word: Word, at: u32, under: Stack) -> Result<State, Refusal>
    ensures { (f : Names) → Gives f result (opened (specifier_of (lexeme_of f word.lexeme)) (lexeme_of f word.lexeme) word.at at (stack_of f under)) }
{
    match specifier_said(&word.lexeme) {
        Some(first) => match one_specifier(alloc, first) {
            Ok(specifiers) => Ok(State::OfOperand(AtOperand::Typed { specifiers, at }, under)),
            Err(refusal) => {
                under.let_go();
                Err(refusal)
            }
        },
        None => {
            let under = under.boxed(alloc)?;
            begin_operand(alloc, word, Stack::InParen { at, under })
        }
    }
}

/// The type of a cast ends.
fn end_type(
    alloc: Global,
    lexeme: Lexeme,
    specifiers: Vec<Specifier>,
    at: u32,
    under: Stack,
) -> Result<State, Refusal>
    ensures { (f : Names) → Gives f result (cast_ends (lexeme_of f lexeme) specifiers.items at (stack_of f under)) }
{
    match lexeme {
        Lexeme::Plain(TokenKind::RightParen) => {
            let under = under.boxed(alloc)?;
            Ok(State::OfOperand(
                AtOperand::Wants,
                Stack::AfterCast {
                    specifiers,
                    at,
                    under,
                },
            ))
        }
        _ => Err(under.refuse()),
    }
}

/// The type of a cast goes on or ends.
pub fn go_on_type(
    alloc: Global,
    lexeme: Lexeme,
    specifiers: Vec<Specifier>,
    at: u32,
    under: Stack,
) -> Result<State, Refusal>
    ensures { (f : Names) → Gives f result (typed (specifier_of (lexeme_of f lexeme)) (lexeme_of f lexeme) specifiers.items at (stack_of f under)) }
{
    match specifier_said(&lexeme) {
        Some(next) => match and_specifier(specifiers, next) {
            Ok(specifiers) => Ok(State::OfOperand(AtOperand::Typed { specifiers, at }, under)),
            Err(refusal) => {
                under.let_go();
                Err(refusal)
            }
        },
        None => end_type(alloc, lexeme, specifiers, at, under),
    }
}

/// A call of which no argument has begun.
fn in_call(alloc: Global, function: NameAt, under: Stack) -> Result<Stack, Refusal>
    ensures ok { (f : Names) → IfOk result (λ s. stack_of f s ≡ InCall (f function.name.0) function.at NoExpr (stack_of f under)) }
    ensures err { IfErr result (λ e. e ≡ Memory) }
{
    let under = under.boxed(alloc)?;
    Ok(Stack::InCall(function, no_parts(alloc), under))
}

/// Behind the opening bracket of a call it ends, or an argument begins.
pub fn begin_arguments(
    alloc: Global,
    word: Word,
    function: NameAt,
    under: Stack,
) -> Result<State, Refusal>
    ensures { (f : Names) → Gives f result (called (lexeme_of f word.lexeme) word.at (f function.name.0) function.at (stack_of f under)) }
{
    let Word { lexeme, at } = word;
    match lexeme {
        Lexeme::Plain(TokenKind::RightParen) => {
            Ok(State::OfOperand(AtOperand::Has(call_of_none(alloc, function)), under))
        }
        _ => {
            let under = in_call(alloc, function, under)?;
            begin_operand(alloc, Word { lexeme, at }, under)
        }
    }
}

/// The keyword or punctuator that a token is.
fn plain_kind(lexeme: &Lexeme) -> Option<TokenKind>
    ensures some { (f : Names) → IfSome result (λ kind. lexeme_of f lexeme.now ≡ Plain kind) }
    ensures none { (f : Names) → IfNone result (IsWord (lexeme_of f lexeme.now)) }
{
    match lexeme {
        Lexeme::Plain(kind) => Some(*kind),
        _ => None,
    }
}

/// What a token does behind an operand.
#[tactic(auto, using(crate::proofs::Words::word_behind))]
pub fn behind_operand(
    alloc: Global,
    lexeme: Lexeme,
    tree: Part,
    under: Stack,
) -> Result<State, Refusal>
    requires { stack_depth under tree.depth ≤ 256 }
    ensures { (f : Names) → Gives f result (go_on (role (lexeme_of f lexeme)) (lexeme_of f lexeme) (part_of f tree) (stack_of f under)) }
{
    match plain_kind(&lexeme) {
        Some(kind) => go_on_with(alloc, under, role_of(kind), kind, tree),
        None => {
            tree.let_go();
            Err(under.refuse())
        }
    }
}
