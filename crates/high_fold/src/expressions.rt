// Expressions with what is known of them computed.
ghost use Rattle.std.specs.Prelude.{◌≡◌, IfOk, None, Some, map};
ghost use Rattle.high_ir.specs.View.{expr_of};
ghost use Rattle.high_folded.specs.Folded.{binary_folded, constant_of, folded_expr, stored_expr, unary_folded};

use super::ranges::{gives_left, gives_right, is_idle, is_lost};
use high_ir::expression::{BinaryOperator, Expr, UnaryOperator};
use high_ir::expressions::{binary, element, let_go_expr, unary};
use high_ir::object::Kind;
use std::alloc::Global;
use wcc_base::Memory;

/// The word of a constant.
pub fn constant_of(expr: &Expr) -> Option<u32>
    ensures { result ≡ constant_of (expr_of expr.now) }
{
    match expr {
        Expr::Constant(word) => Some(*word),
        Expr::Variable(_) => None,
        Expr::Element { .. } => None,
        Expr::Unary { .. } => None,
        Expr::Binary { .. } => None,
    }
}

fn unary_folded(alloc: Global, operator: UnaryOperator, operand: Expr) -> Result<Expr, Memory>
    ensures { IfOk result (λ e. expr_of e ≡ unary_folded (constant_of (expr_of operand)) operator (expr_of operand)) }
{
    match constant_of(&operand) {
        None => {
            if is_idle(operator, &operand) {
                return Ok(operand);
            }
            unary(alloc, operator, operand)
        }
        Some(word) => {
            let_go_expr(operand);
            Ok(Expr::Constant(operator.apply(word)))
        }
    }
}

/// An operator whose right side is this constant.
fn with_right(
    alloc: Global,
    operator: BinaryOperator,
    left: Expr,
    right: Expr,
    word: u32,
) -> Result<Expr, Memory>
    ensures { IfOk result (λ e. expr_of e ≡ binary_folded (constant_of (expr_of left)) (Some word) operator (expr_of left) (expr_of right)) }
{
    match constant_of(&left) {
        None => {
            if gives_left(operator, &left, word) {
                let_go_expr(right);
                return Ok(left);
            }
            binary(alloc, operator, left, right)
        }
        Some(first) => {
            let_go_expr(left);
            let_go_expr(right);
            Ok(Expr::Constant(operator.apply(first, word)))
        }
    }
}

/// An operator whose right side is no constant.
fn with_left(
    alloc: Global,
    operator: BinaryOperator,
    left: Expr,
    right: Expr,
) -> Result<Expr, Memory>
    ensures { IfOk result (λ e. expr_of e ≡ binary_folded (constant_of (expr_of left)) None operator (expr_of left) (expr_of right)) }
{
    match constant_of(&left) {
        None => binary(alloc, operator, left, right),
        Some(word) => {
            if gives_right(operator, word, &right) {
                let_go_expr(left);
                return Ok(right);
            }
            binary(alloc, operator, left, right)
        }
    }
}

fn binary_folded(
    alloc: Global,
    operator: BinaryOperator,
    left: Expr,
    right: Expr,
) -> Result<Expr, Memory>
    ensures { IfOk result (λ e. expr_of e ≡ binary_folded (constant_of (expr_of left)) (constant_of (expr_of right)) operator (expr_of left) (expr_of right)) }
{
    match constant_of(&right) {
        None => with_left(alloc, operator, left, right),
        Some(word) => with_right(alloc, operator, left, right, word),
    }
}

/// An expression with its constants computed, and without operators that change nothing.
pub fn folded_expr(alloc: Global, expr: &Expr) -> Result<Expr, Memory>
    ensures { IfOk result (λ e. expr_of e ≡ folded_expr (expr_of expr.now)) }
{
    match expr {
        Expr::Constant(word) => Ok(Expr::Constant(*word)),
        Expr::Variable(x) => Ok(Expr::Variable(*x)),
        Expr::Element { array, index } => element(alloc, *array, folded_expr(alloc, index)?),
        Expr::Unary { operator, operand } => {
            unary_folded(alloc, *operator, folded_expr(alloc, operand)?)
        }
        Expr::Binary {
            operator,
            left,
            right,
        } => {
            let left = folded_expr(alloc, left)?;
            match folded_expr(alloc, right) {
                Ok(right) => binary_folded(alloc, *operator, left, right),
                Err(memory) => {
                    let_go_expr(left);
                    Err(memory)
                }
            }
        }
    }
}

/// An expression that is stored into an element of a kind, without the conversions that the store makes anyway.
pub fn stored_expr(alloc: Global, kind: Kind, expr: &Expr) -> Result<Expr, Memory>
    ensures { IfOk result (λ e. expr_of e ≡ stored_expr kind (expr_of expr.now)) }
{
    match expr {
        Expr::Constant(word) => Ok(Expr::Constant(*word)),
        Expr::Variable(x) => Ok(Expr::Variable(*x)),
        Expr::Element { .. } => folded_expr(alloc, expr),
        Expr::Unary { operator, operand } => {
            if is_lost(kind, *operator) {
                return stored_expr(alloc, kind, operand);
            }
            folded_expr(alloc, expr)
        }
        Expr::Binary { .. } => folded_expr(alloc, expr),
    }
}

pub fn folded_exprs(alloc: Global, exprs: &[Expr]) -> Result<Vec<Expr>, Memory>
    ensures { IfOk result (λ v. map expr_of v.items ≡ map folded_expr (map expr_of exprs.now)) }
{
    let mut made = Vec::new(alloc);
    for expr in exprs {
        made.push(folded_expr(alloc, expr)?)?;
    }
    Ok(made)
}
