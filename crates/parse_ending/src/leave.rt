ghost use Rattle.std.specs.Prelude.{◌≡◌, ◌<◌, ◌≤◌, max, IfErr, IfOk};
ghost use Rattle.c_tree.specs.Said.{Lexeme, Plain};
ghost use Rattle.c_tree.specs.Tree.{AndExpr, Call, NoExpr};
ghost use Rattle.c_tree.specs.View.{expr_of, exprs_of};
ghost use Rattle.parse_grammar.specs.Begun.{InCall, AfterQuestion, InIndex, InParen};
ghost use Rattle.parse_grammar.specs.Machine.{go_on, leave};
ghost use Rattle.parse_operand.specs.Roles.{role_view};
ghost use Rattle.parse_begun.specs.Depths.{stack_depth};
ghost use Rattle.parse_begun.specs.View.{Gives, Names, part_of, parts_of, stack_of};
ghost use Rattle.parse_begun.specs.declared.refusal.Refusal.TheVariants.{Memory};

use super::take::take;
use c_tree::expression::BinaryOperator;
use c_tree::token::TokenKind;
use parse_begun::begun::{AtOperand, NameAt, Stack, State};
use parse_begun::list::and_expr;
use parse_begun::part::{Part, Parts};
use parse_begun::refusal::Refusal;
use parse_nodes::expression::{assign, binary, call, cast, conditional, index, paren, prefix};
use parse_operand::demand::demand_of;
use parse_operand::operand::enter_role;
use parse_operand::role::{Role, reach_of};
use std::alloc::Global;

/// A refusal, for which what stands there is let go.
fn without(under: Box<Stack>, refusal: Refusal) -> Refusal
    ensures { result ≡ refusal }
{
    Box::into_inner(under).let_go();
    refusal
}

/// The operand in round brackets has ended.
fn close_paren(
    alloc: Global,
    under: Box<Stack>,
    role: Role,
    tree: Part,
    at: u32,
) -> Result<State, Refusal>
    requires { tree.depth < 256 }
    ensures { (f : Names) (said : Lexeme) → Gives f result (leave (InParen at (stack_of f under.value)) (role_view role) said (part_of f tree)) }
{
    match role {
        Role::ClosesParen => match paren(alloc, tree, at) {
            Ok(whole) => Ok(State::OfOperand(AtOperand::Has(whole), Box::into_inner(under))),
            Err(refusal) => Err(without(under, refusal)),
        },
        _ => {
            tree.let_go();
            Err(without(under, Refusal::Syntax))
        }
    }
}

/// The operand in square brackets has ended.
fn close_index(
    alloc: Global,
    under: Box<Stack>,
    role: Role,
    tree: Part,
    array: NameAt,
) -> Result<State, Refusal>
    requires { tree.depth < 256 }
    ensures { (f : Names) (said : Lexeme) → Gives f result (leave (InIndex (f array.name.0) array.at (stack_of f under.value)) (role_view role) said (part_of f tree)) }
{
    match role {
        Role::ClosesBracket => match index(alloc, array, tree) {
            Ok(whole) => Ok(State::OfOperand(AtOperand::Has(whole), Box::into_inner(under))),
            Err(refusal) => Err(without(under, refusal)),
        },
        _ => {
            tree.let_go();
            Err(without(under, Refusal::Syntax))
        }
    }
}

/// A call with one argument more.
fn call_with(function: NameAt, front: Parts, last: Part) -> Result<Part, Refusal>
    requires { max front.depth last.depth < 256 }
    ensures ok { IfOk result (λ p. expr_of p.tree ≡ Call function.name.0 (AndExpr (exprs_of NoExpr front.list.items) (expr_of last.tree)) function.at) }
    ensures err { IfErr result (λ e. e ≡ Memory) }
{
    let arguments = and_expr(front, last)?;
    Ok(call(function, arguments))
}

/// An argument of a call has ended.
fn close_argument(
    under: Box<Stack>,
    role: Role,
    tree: Part,
    function: NameAt,
    front: Parts,
) -> Result<State, Refusal>
    requires { max front.depth tree.depth < 256 }
    ensures { (f : Names) (said : Lexeme) → Gives f result (leave (InCall (f function.name.0) function.at (parts_of f front) (stack_of f under.value)) (role_view role) said (part_of f tree)) }
{
    match role {
        Role::ClosesParen => match call_with(function, front, tree) {
            Ok(whole) => Ok(State::OfOperand(AtOperand::Has(whole), Box::into_inner(under))),
            Err(refusal) => Err(without(under, refusal)),
        },
        Role::Joins(BinaryOperator::Comma) => match and_expr(front, tree) {
            Ok(front) => Ok(State::OfOperand(
                AtOperand::Wants,
                Stack::InCall(function, front, under),
            )),
            Err(refusal) => Err(without(under, refusal)),
        },
        _ => {
            front.let_go();
            tree.let_go();
            Err(without(under, Refusal::Syntax))
        }
    }
}

/// The second operand of a conditional has ended.
fn separate(
    alloc: Global,
    under: Box<Stack>,
    role: Role,
    tree: Part,
    test: Part,
) -> Result<State, Refusal>
    ensures { (f : Names) (said : Lexeme) → Gives f result (leave (AfterQuestion (part_of f test) (stack_of f under.value)) (role_view role) said (part_of f tree)) }
{
    match role {
        Role::Separates => match tree.boxed(alloc) {
            Ok(first) => Ok(State::OfOperand(
                AtOperand::Wants,
                Stack::AfterColon { test, first, under },
            )),
            Err(refusal) => {
                test.let_go();
                Err(without(under, refusal))
            }
        },
        _ => {
            test.let_go();
            tree.let_go();
            Err(without(under, Refusal::Syntax))
        }
    }
}

/// The operand goes on, or has ended.
#[cycle(leaving)]
pub fn go_on_with(
    alloc: Global,
    under: Stack,
    role: Role,
    kind: TokenKind,
    tree: Part,
) -> Result<State, Refusal>
    requires { stack_depth under tree.depth ≤ 256 }
    ensures { (f : Names) → Gives f result (go_on (role_view role) (Plain kind) (part_of f tree) (stack_of f under)) }
{
    if reach_of(role) <= demand_of(&under) {
        enter_role(alloc, role, tree, under)
    } else {
        leave_part(alloc, under, role, kind, tree)
    }
}

/// The operand has ended, and the part that it ends goes on or ends with it.
///
/// An operand that is the whole expression is spared the locals of [`leave_nested`], which are cleared when it
/// is entered.
#[cycle(leaving)]
fn leave_part(
    alloc: Global,
    under: Stack,
    role: Role,
    kind: TokenKind,
    tree: Part,
) -> Result<State, Refusal>
    requires { stack_depth under tree.depth ≤ 256 }
    ensures { (f : Names) → Gives f result (leave (stack_of f under) (role_view role) (Plain kind) (part_of f tree)) }
{
    match under {
        Stack::Base(purpose) => take(alloc, purpose, kind, tree),
        nested => leave_nested(alloc, nested, role, kind, tree),
    }
}

/// An operand has ended that may stand in another expression.
#[cycle(leaving)]
#[tactic(auto, using(parse_begun::proofs::Deeper::stack_deeper, c_tree::proofs::NamedTrees::place_named))]
fn leave_nested(
    alloc: Global,
    under: Stack,
    role: Role,
    kind: TokenKind,
    tree: Part,
) -> Result<State, Refusal>
    requires { stack_depth under tree.depth ≤ 256 }
    ensures { (f : Names) → Gives f result (leave (stack_of f under) (role_view role) (Plain kind) (part_of f tree)) }
{
    match under {
        Stack::AfterPrefix {
            operator,
            at,
            under: rest,
        } => match prefix(alloc, operator, tree, at) {
            Ok(whole) => go_on_with(alloc, Box::into_inner(rest), role, kind, whole),
            Err(refusal) => Err(without(rest, refusal)),
        },
        Stack::AfterCast {
            specifiers,
            at,
            under: rest,
        } => match cast(alloc, specifiers, tree, at) {
            Ok(whole) => go_on_with(alloc, Box::into_inner(rest), role, kind, whole),
            Err(refusal) => Err(without(rest, refusal)),
        },
        Stack::AfterJoin {
            operator,
            left,
            under: rest,
        } => match binary(alloc, operator, left, tree) {
            Ok(whole) => go_on_with(alloc, Box::into_inner(rest), role, kind, whole),
            Err(refusal) => Err(without(rest, refusal)),
        },
        Stack::AfterColon {
            test,
            first,
            under: rest,
        } => match conditional(alloc, test, Box::into_inner(first), tree) {
            Ok(whole) => go_on_with(alloc, Box::into_inner(rest), role, kind, whole),
            Err(refusal) => Err(without(rest, refusal)),
        },
        Stack::AfterAssign {
            operator,
            target,
            under: rest,
        } => match assign(alloc, operator, target, tree) {
            Ok(whole) => go_on_with(alloc, Box::into_inner(rest), role, kind, whole),
            Err(refusal) => Err(without(rest, refusal)),
        },
        Stack::InParen { at, under: rest } => close_paren(alloc, rest, role, tree, at),
        Stack::InIndex(array, rest) => close_index(alloc, rest, role, tree, array),
        Stack::InCall(function, front, rest) => {
            close_argument(rest, role, tree, function, front)
        }
        Stack::AfterQuestion { test, under: rest } => separate(alloc, rest, role, tree, test),
        Stack::Base(purpose) => take(alloc, purpose, kind, tree),
    }
}
