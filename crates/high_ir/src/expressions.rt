// Expressions, one operator at a time.
ghost use Rattle.std.specs.Prelude.{◌≡◌, IfOk};
ghost use Rattle.high_ir.specs.Tree.{Binary, Element, Unary};
ghost use Rattle.high_ir.specs.View.{expr_of};

use super::expression::{BinaryOperator, Expr, UnaryOperator};
use super::object::Array;
use std::alloc::Global;
use wcc_base::Memory;

fn boxed(alloc: Global, expr: Expr) -> Result<Box<Expr>, Memory>
    ensures { IfOk result (λ b. b.value ≡ expr) }
{
    Ok(Box::new(alloc, expr)?)
}

/// Lets go of an expression. What it is made of is let go here, once.
pub fn let_go_expr(expr: Expr) {
    drop(expr);
}

pub fn unary(alloc: Global, operator: UnaryOperator, operand: Expr) -> Result<Expr, Memory>
    ensures { IfOk result (λ e. expr_of e ≡ Unary operator (expr_of operand)) }
{
    Ok(Expr::Unary {
        operator,
        operand: boxed(alloc, operand)?,
    })
}

pub fn binary(
    alloc: Global,
    operator: BinaryOperator,
    left: Expr,
    right: Expr,
) -> Result<Expr, Memory>
    ensures { IfOk result (λ e. expr_of e ≡ Binary operator (expr_of left) (expr_of right)) }
{
    let left = match boxed(alloc, left) {
        Ok(left) => left,
        Err(memory) => {
            let_go_expr(right);
            return Err(memory);
        }
    };
    match boxed(alloc, right) {
        Ok(right) => Ok(Expr::Binary {
            operator,
            left,
            right,
        }),
        Err(memory) => {
            drop(left);
            Err(memory)
        }
    }
}

pub fn element(alloc: Global, array: Array, index: Expr) -> Result<Expr, Memory>
    ensures { IfOk result (λ e. expr_of e ≡ Element array (expr_of index)) }
{
    Ok(Expr::Element {
        array,
        index: boxed(alloc, index)?,
    })
}
