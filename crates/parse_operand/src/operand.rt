ghost use Rattle.std.specs.Prelude.{◌≤◌};
ghost use Rattle.parse_grammar.specs.Begun.{AfterPrefix, Wants};
ghost use Rattle.parse_grammar.specs.Machine.{Asks, Assigns, Goes, Joins, OpensBracket, OpensParen, Steps, begin, enter};
ghost use Rattle.c_tree.specs.Said.{Plain};
ghost use Rattle.parse_words.specs.Lexemes.{lexeme_of};
ghost use Rattle.parse_operand.specs.Roles.{role_view};
ghost use Rattle.parse_begun.specs.Depths.{stack_depth};
ghost use Rattle.parse_begun.specs.View.{Gives, Names, part_of, stack_of};

use super::role::{Role, operator_level, tree_level};
use c_tree::expression::{AssignOperator, BinaryOperator, Expr, PostfixOperator, PrefixOperator};
use c_tree::token::TokenKind;
use parse_begun::begun::{AtOperand, NameAt, Stack, State};
use parse_begun::part::Part;
use parse_begun::refusal::Refusal;
use parse_nodes::expression::{character, name, number, postfix};
use parse_words::{Lexeme, Word};
use std::alloc::Global;

/// A prefix operator, and its operand must come.
fn after_prefix(
    alloc: Global,
    operator: PrefixOperator,
    at: u32,
    under: Stack,
) -> Result<State, Refusal>
    ensures { (f : Names) → Gives f result (Goes (Wants (AfterPrefix operator at (stack_of f under)))) }
{
    let under = under.boxed(alloc)?;
    Ok(State::OfOperand(
        AtOperand::Wants,
        Stack::AfterPrefix {
            operator,
            at,
            under,
        },
    ))
}

/// A keyword or punctuator begins an operand.
fn begin_plain(alloc: Global, kind: TokenKind, at: u32, under: Stack) -> Result<State, Refusal>
    ensures { (f : Names) → Gives f result (begin (Plain kind) at (stack_of f under)) }
{
    match kind {
        TokenKind::LeftParen => Ok(State::OfOperand(AtOperand::Opened { at }, under)),
        TokenKind::PlusPlus => after_prefix(alloc, PrefixOperator::Increment, at, under),
        TokenKind::MinusMinus => after_prefix(alloc, PrefixOperator::Decrement, at, under),
        TokenKind::Minus => after_prefix(alloc, PrefixOperator::Negate, at, under),
        TokenKind::Plus => after_prefix(alloc, PrefixOperator::Plus, at, under),
        TokenKind::Tilde => after_prefix(alloc, PrefixOperator::Complement, at, under),
        TokenKind::Exclamation => after_prefix(alloc, PrefixOperator::Not, at, under),
        _ => Err(under.refuse()),
    }
}

/// An operand begins.
pub fn begin_operand(alloc: Global, word: Word, under: Stack) -> Result<State, Refusal>
    ensures { (f : Names) → Gives f result (begin (lexeme_of f word.lexeme) word.at (stack_of f under)) }
{
    let Word { lexeme, at } = word;
    match lexeme {
        Lexeme::Name(id) => Ok(State::OfOperand(
            AtOperand::Has(name(NameAt { name: id, at })),
            under,
        )),
        Lexeme::Integer(constant) => Ok(State::OfOperand(
            AtOperand::Has(number(constant, at)),
            under,
        )),
        Lexeme::Character(value) => Ok(State::OfOperand(
            AtOperand::Has(character(value, at)),
            under,
        )),
        Lexeme::Plain(kind) => begin_plain(alloc, kind, at, under),
        Lexeme::Pragma(_, _) => Err(under.refuse()),
    }
}

/// The operand goes on with a binary operator.
#[tactic(auto, using(c_tree::proofs::NamedTrees::level_named))]
fn join(alloc: Global, operator: BinaryOperator, tree: Part, under: Stack) -> Result<State, Refusal>
    ensures { (f : Names) → Gives f result (enter (Joins operator) (part_of f tree) (stack_of f under)) }
{
    if tree_level(&tree.tree) > operator_level(operator) {
        tree.let_go();
        return Err(under.refuse());
    }
    match under.boxed(alloc) {
        Ok(under) => Ok(State::OfOperand(
            AtOperand::Wants,
            Stack::AfterJoin {
                operator,
                left: tree,
                under,
            },
        )),
        Err(refusal) => {
            tree.let_go();
            Err(refusal)
        }
    }
}

/// The operand is assigned to.
#[tactic(auto, using(c_tree::proofs::NamedTrees::level_named))]
fn assign_to(
    alloc: Global,
    operator: AssignOperator,
    tree: Part,
    under: Stack,
) -> Result<State, Refusal>
    ensures { (f : Names) → Gives f result (enter (Assigns operator) (part_of f tree) (stack_of f under)) }
{
    if tree_level(&tree.tree) > 2 {
        tree.let_go();
        return Err(under.refuse());
    }
    match under.boxed(alloc) {
        Ok(under) => Ok(State::OfOperand(
            AtOperand::Wants,
            Stack::AfterAssign {
                operator,
                target: tree,
                under,
            },
        )),
        Err(refusal) => {
            tree.let_go();
            Err(refusal)
        }
    }
}

/// A question behind the operand.
#[tactic(auto, using(c_tree::proofs::NamedTrees::level_named))]
fn ask(alloc: Global, tree: Part, under: Stack) -> Result<State, Refusal>
    ensures { (f : Names) → Gives f result (enter Asks (part_of f tree) (stack_of f under)) }
{
    if tree_level(&tree.tree) > 12 {
        tree.let_go();
        return Err(under.refuse());
    }
    match under.boxed(alloc) {
        Ok(under) => Ok(State::OfOperand(
            AtOperand::Wants,
            Stack::AfterQuestion { test: tree, under },
        )),
        Err(refusal) => {
            tree.let_go();
            Err(refusal)
        }
    }
}

/// The operand is stepped.
#[tactic(auto, using(c_tree::proofs::NamedTrees::level_named, c_tree::proofs::NamedTrees::place_named, parse_begun::proofs::Deeper::stack_deeper))]
fn step_behind(
    alloc: Global,
    operator: PostfixOperator,
    tree: Part,
    under: Stack,
) -> Result<State, Refusal>
    requires { stack_depth under tree.depth ≤ 256 }
    ensures { (f : Names) → Gives f result (enter (Steps operator) (part_of f tree) (stack_of f under)) }
{
    if tree_level(&tree.tree) > 1 {
        tree.let_go();
        return Err(under.refuse());
    }
    match postfix(alloc, operator, tree) {
        Ok(whole) => Ok(State::OfOperand(AtOperand::Has(whole), under)),
        Err(refusal) => {
            under.let_go();
            Err(refusal)
        }
    }
}

/// A call of the operand, where it is a name.
fn open_call(tree: Part, under: Stack) -> Result<State, Refusal>
    ensures { (f : Names) → Gives f result (enter OpensParen (part_of f tree) (stack_of f under)) }
{
    match &tree.tree {
        Expr::Name { name, at } => {
            let function = NameAt {
                name: *name,
                at: *at,
            };
            tree.let_go();
            Ok(State::OfOperand(AtOperand::Called(function), under))
        }
        _ => {
            tree.let_go();
            Err(under.refuse())
        }
    }
}

/// An element of the operand, where it is a name.
fn open_index(alloc: Global, tree: Part, under: Stack) -> Result<State, Refusal>
    ensures { (f : Names) → Gives f result (enter OpensBracket (part_of f tree) (stack_of f under)) }
{
    match &tree.tree {
        Expr::Name { name, at } => {
            let array = NameAt {
                name: *name,
                at: *at,
            };
            tree.let_go();
            let under = under.boxed(alloc)?;
            Ok(State::OfOperand(AtOperand::Wants, Stack::InIndex(array, under)))
        }
        _ => {
            tree.let_go();
            Err(under.refuse())
        }
    }
}

/// The operand goes on.
pub fn enter_role(alloc: Global, role: Role, tree: Part, under: Stack) -> Result<State, Refusal>
    requires { stack_depth under tree.depth ≤ 256 }
    ensures { (f : Names) → Gives f result (enter (role_view role) (part_of f tree) (stack_of f under)) }
{
    match role {
        Role::Joins(operator) => join(alloc, operator, tree, under),
        Role::Assigns(operator) => assign_to(alloc, operator, tree, under),
        Role::Steps(operator) => step_behind(alloc, operator, tree, under),
        Role::Asks => ask(alloc, tree, under),
        Role::OpensParen => open_call(tree, under),
        Role::OpensBracket => open_index(alloc, tree, under),
        _ => {
            tree.let_go();
            Err(under.refuse())
        }
    }
}
