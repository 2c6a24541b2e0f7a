// Expressions, made again.
ghost use Rattle.std.specs.Prelude.{◌≡◌, IfOk, map};
ghost use Rattle.high_ir.specs.View.{expr_of};

use high_ir::expression::Expr;
use high_ir::expressions::{binary, element, let_go_expr, unary};
use std::alloc::Global;
use wcc_base::Memory;

/// The same expression again.
pub fn copied_expr(alloc: Global, expr: &Expr) -> Result<Expr, Memory>
    ensures { IfOk result (λ e. expr_of e ≡ expr_of expr.now) }
{
    match expr {
        Expr::Constant(word) => Ok(Expr::Constant(*word)),
        Expr::Variable(x) => Ok(Expr::Variable(*x)),
        Expr::Element { array, index } => element(alloc, *array, copied_expr(alloc, index)?),
        Expr::Unary { operator, operand } => {
            unary(alloc, *operator, copied_expr(alloc, operand)?)
        }
        Expr::Binary {
            operator,
            left,
            right,
        } => {
            let left = copied_expr(alloc, left)?;
            match copied_expr(alloc, right) {
                Ok(right) => binary(alloc, *operator, left, right),
                Err(memory) => {
                    let_go_expr(left);
                    Err(memory)
                }
            }
        }
    }
}

/// The same expressions again.
pub fn copied_exprs(alloc: Global, exprs: &[Expr]) -> Result<Vec<Expr>, Memory>
    ensures { IfOk result (λ v. map expr_of v.items ≡ map expr_of exprs.now) }
{
    let mut copies = Vec::new(alloc);
    for expr in exprs {
        copies.push(copied_expr(alloc, expr)?)?;
    }
    Ok(copies)
}
