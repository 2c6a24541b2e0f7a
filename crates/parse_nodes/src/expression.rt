ghost use Rattle.std.specs.Prelude.{◌≡◌, ◌+◌, ◌<◌, max, IfErr, IfOk};
ghost use Rattle.c_tree.specs.Formed.{place};
ghost use Rattle.c_tree.specs.Tree.{Assign, Binary, Call, Cast, Character, Conditional, Index, Name, NoExpr, Number, Paren, Postfix, Prefix};
ghost use Rattle.c_tree.specs.View.{expr_of, exprs_of};
ghost use Rattle.parse_begun.specs.declared.refusal.Refusal.TheVariants.{Memory};

use c_tree::expression::{
    AssignOperator, BinaryOperator, Expr, PostfixOperator, PrefixOperator, Specifier,
};
use c_tree::token::Constant;
use parse_begun::begun::NameAt;
use parse_begun::boxed::{three_trees, two_trees};
use parse_begun::part::{Part, Parts};
use parse_begun::refusal::Refusal;
use std::alloc::Global;

pub fn name(name: NameAt) -> Part
    ensures { expr_of result.tree ≡ Name name.name.0 name.at }
{
    Part {
        tree: Expr::Name {
            name: name.name,
            at: name.at,
        },
        depth: 1,
    }
}

pub fn number(constant: Constant, at: u32) -> Part
    ensures { expr_of result.tree ≡ Number constant at }
{
    Part {
        tree: Expr::Number { constant, at },
        depth: 1,
    }
}

pub fn character(value: u8, at: u32) -> Part
    ensures { expr_of result.tree ≡ Character value at }
{
    Part {
        tree: Expr::Character { value, at },
        depth: 1,
    }
}

pub fn paren(alloc: Global, inner: Part, at: u32) -> Result<Part, Refusal>
    requires { inner.depth < 256 }
    ensures ok { IfOk result (λ p. (expr_of p.tree ≡ Paren (expr_of inner.tree) at) × (p.depth ≡ inner.depth + 1)) }
    ensures err { IfErr result (λ e. e ≡ Memory) }
{
    let depth = inner.depth + 1;
    let inner = inner.into_box(alloc)?;
    Ok(Part {
        tree: Expr::Paren { inner, at },
        depth,
    })
}

pub fn binary(
    alloc: Global,
    operator: BinaryOperator,
    left: Part,
    right: Part,
) -> Result<Part, Refusal>
    requires { max left.depth right.depth < 256 }
    ensures ok { IfOk result (λ p. (expr_of p.tree ≡ Binary operator (expr_of left.tree) (expr_of right.tree) (place (expr_of left.tree))) × (p.depth ≡ max left.depth right.depth + 1)) }
    ensures err { IfErr result (λ e. e ≡ Memory) }
{
    let depth = left.depth.max(right.depth) + 1;
    let at = left.tree.place();
    let (left, right) = two_trees(alloc, left, right)?;
    Ok(Part {
        tree: Expr::Binary {
            operator,
            left,
            right,
            at,
        },
        depth,
    })
}

pub fn index(alloc: Global, array: NameAt, inner: Part) -> Result<Part, Refusal>
    requires { inner.depth < 256 }
    ensures ok { IfOk result (λ p. (expr_of p.tree ≡ Index array.name.0 (expr_of inner.tree) array.at) × (p.depth ≡ inner.depth + 1)) }
    ensures err { IfErr result (λ e. e ≡ Memory) }
{
    let depth = inner.depth + 1;
    let index = inner.into_box(alloc)?;
    Ok(Part {
        tree: Expr::Index {
            array: array.name,
            index,
            at: array.at,
        },
        depth,
    })
}

pub fn postfix(alloc: Global, operator: PostfixOperator, operand: Part) -> Result<Part, Refusal>
    requires { operand.depth < 256 }
    ensures ok { IfOk result (λ p. (expr_of p.tree ≡ Postfix operator (expr_of operand.tree) (place (expr_of operand.tree))) × (p.depth ≡ operand.depth + 1)) }
    ensures err { IfErr result (λ e. e ≡ Memory) }
{
    let depth = operand.depth + 1;
    let at = operand.tree.place();
    let operand = operand.into_box(alloc)?;
    Ok(Part {
        tree: Expr::Postfix {
            operator,
            operand,
            at,
        },
        depth,
    })
}

pub fn prefix(
    alloc: Global,
    operator: PrefixOperator,
    operand: Part,
    at: u32,
) -> Result<Part, Refusal>
    requires { operand.depth < 256 }
    ensures ok { IfOk result (λ p. (expr_of p.tree ≡ Prefix operator (expr_of operand.tree) at) × (p.depth ≡ operand.depth + 1)) }
    ensures err { IfErr result (λ e. e ≡ Memory) }
{
    let depth = operand.depth + 1;
    let operand = operand.into_box(alloc)?;
    Ok(Part {
        tree: Expr::Prefix {
            operator,
            operand,
            at,
        },
        depth,
    })
}

pub fn cast(
    alloc: Global,
    specifiers: Vec<Specifier>,
    operand: Part,
    at: u32,
) -> Result<Part, Refusal>
    requires { operand.depth < 256 }
    ensures ok { IfOk result (λ p. (expr_of p.tree ≡ Cast specifiers.items (expr_of operand.tree) at) × (p.depth ≡ operand.depth + 1)) }
    ensures err { IfErr result (λ e. e ≡ Memory) }
{
    let depth = operand.depth + 1;
    let operand = operand.into_box(alloc)?;
    Ok(Part {
        tree: Expr::Cast {
            specifiers,
            operand,
            at,
        },
        depth,
    })
}

pub fn conditional(alloc: Global, test: Part, first: Part, second: Part) -> Result<Part, Refusal>
    requires { max (max test.depth first.depth) second.depth < 256 }
    ensures ok { IfOk result (λ p. (expr_of p.tree ≡ Conditional (expr_of test.tree) (expr_of first.tree) (expr_of second.tree) (place (expr_of test.tree))) × (p.depth ≡ max (max test.depth first.depth) second.depth + 1)) }
    ensures err { IfErr result (λ e. e ≡ Memory) }
{
    let depth = test.depth.max(first.depth).max(second.depth) + 1;
    let at = test.tree.place();
    let (test, then, otherwise) = three_trees(alloc, test, first, second)?;
    Ok(Part {
        tree: Expr::Conditional {
            test,
            then,
            otherwise,
            at,
        },
        depth,
    })
}

pub fn assign(
    alloc: Global,
    operator: AssignOperator,
    target: Part,
    value: Part,
) -> Result<Part, Refusal>
    requires { max target.depth value.depth < 256 }
    ensures ok { IfOk result (λ p. (expr_of p.tree ≡ Assign operator (expr_of target.tree) (expr_of value.tree) (place (expr_of target.tree))) × (p.depth ≡ max target.depth value.depth + 1)) }
    ensures err { IfErr result (λ e. e ≡ Memory) }
{
    let depth = target.depth.max(value.depth) + 1;
    let at = target.tree.place();
    let (target, value) = two_trees(alloc, target, value)?;
    Ok(Part {
        tree: Expr::Assign {
            operator,
            target,
            value,
            at,
        },
        depth,
    })
}

pub fn call(function: NameAt, arguments: Parts) -> Part
    requires { arguments.depth < 256 }
    ensures tree { expr_of result.tree ≡ Call function.name.0 (exprs_of NoExpr arguments.list.items) function.at }
    ensures depth { result.depth ≡ arguments.depth + 1 }
{
    let depth = arguments.depth + 1;
    Part {
        tree: Expr::call(function.name, arguments.list, function.at),
        depth,
    }
}

/// A call without arguments.
pub fn call_of_none(alloc: Global, function: NameAt) -> Part
    ensures { expr_of result.tree ≡ Call function.name.0 NoExpr function.at }
{
    Part {
        tree: Expr::call(function.name, Vec::new(alloc), function.at),
        depth: 1,
    }
}
