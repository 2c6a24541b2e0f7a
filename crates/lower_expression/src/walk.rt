// The walk over an expression.
ghost use Rattle.std.specs.Prelude.{◌≡◌, IfOk, suc};
ghost use Rattle.high_ir.specs.View.{expr_of};
ghost use Rattle.lower_expression.specs.Behind.{after, after_index, after_valued};
ghost use Rattle.lower_expression.specs.View.{code_of, index_in, scope_of, shares_of, valued_of};
ghost use Rattle.lower_coder.specs.View.{coded_of};
ghost use Rattle.lower_definition.specs.Values.{element_into, in_register, index_of, operand, value_into};

use super::addressing::{Index, Side, base_of, offset_of, split};
use super::scope::{Scope, leaf, variable};
use super::sharing::Share;
use high_ir::expression::Expr;
use high_ir::object::Array;
use low_ir::{Instr, Operand};
use lower_coder::Coder;
use lower_coder::objects::kind_of;
use wcc_base::Memory;

/// The value of an expression in a register.
#[cycle(expressions)]
pub fn value_into(
    scope: &Scope,
    shares: &[Share],
    expr: &Expr,
    into: u32,
    coder: &mut Coder,
) -> Result<(), Memory>
    ensures { IfOk result (λ _. coded_of coder.new ≡ after (code_of coder.old) (value_into (scope_of scope.now) (shares_of shares.now) (expr_of expr.now) into coder.old.free)) }
{
    match expr {
        Expr::Constant(word) => coder.push(Instr::Set {
            into,
            value: Operand::Constant(*word),
        }),
        Expr::Variable(x) => coder.push(Instr::Set {
            into,
            value: variable(scope, *x),
        }),
        Expr::Element { array, index } => {
            element_into(scope, shares, *array, index, into, coder)
        }
        Expr::Unary {
            operator,
            operand: inner,
        } => {
            let value = operand(scope, shares, inner, coder)?;
            coder.unary(*operator, into, value)
        }
        Expr::Binary {
            operator,
            left,
            right,
        } => {
            let left = operand(scope, shares, left, coder)?;
            let right = operand(scope, shares, right, coder)?;
            coder.binary(scope.shifts, *operator, into, left, right)
        }
    }
}

/// The value of an element in a register; one of an array that isn't there is 0.
#[cycle(expressions)]
fn element_into(
    scope: &Scope,
    shares: &[Share],
    array: Array,
    index: &Expr,
    into: u32,
    coder: &mut Coder,
) -> Result<(), Memory>
    ensures { IfOk result (λ _. coded_of coder.new ≡ after (code_of coder.old) (element_into (scope_of scope.now) (shares_of shares.now) array into (index_of (scope_of scope.now) (shares_of shares.now) (expr_of index.now) coder.old.free))) }
{
    match base_of(scope, array.base)? {
        None => {
            let mut scratch = Coder::new(scope.alloc, coder.free);
            let index = index_of(scope, shares, index, &mut scratch)?;
            offset_of(shares, array.kind, index, &mut scratch)?;
            coder.free = scratch.free;
            drop(scratch);
            coder.push(Instr::Set {
                into,
                value: Operand::Constant(0),
            })
        }
        Some(base) => {
            let index = index_of(scope, shares, index, coder)?;
            let offset = offset_of(shares, array.kind, index, coder)?;
            coder.push(Instr::Load {
                kind: kind_of(array.kind),
                into,
                address: offset.at(base),
            })
        }
    }
}

/// The value of an expression in a register of its own.
#[cycle(expressions)]
fn in_register(
    scope: &Scope,
    shares: &[Share],
    expr: &Expr,
    coder: &mut Coder,
) -> Result<Operand, Memory>
    ensures { IfOk result (λ x. valued_of coder.new x ≡ after_valued (code_of coder.old) (in_register coder.old.free (value_into (scope_of scope.now) (shares_of shares.now) (expr_of expr.now) coder.old.free (suc coder.old.free)))) }
{
    let register = coder.fresh()?;
    value_into(scope, shares, expr, register, coder)?;
    Ok(Operand::Register(register))
}

/// The value of an expression as an operand.
#[cycle(expressions)]
pub fn operand(
    scope: &Scope,
    shares: &[Share],
    expr: &Expr,
    coder: &mut Coder,
) -> Result<Operand, Memory>
    ensures { IfOk result (λ x. valued_of coder.new x ≡ after_valued (code_of coder.old) (operand (scope_of scope.now) (shares_of shares.now) (expr_of expr.now) coder.old.free)) }
{
    match leaf(scope, expr) {
        Some(value) => Ok(value),
        None => in_register(scope, shares, expr, coder),
    }
}

/// An expression as an index.
#[cycle(expressions)]
pub fn index_of(
    scope: &Scope,
    shares: &[Share],
    expr: &Expr,
    coder: &mut Coder,
) -> Result<Index, Memory>
    ensures { IfOk result (λ i. index_in coder.new i ≡ after_index (code_of coder.old) (index_of (scope_of scope.now) (shares_of shares.now) (expr_of expr.now) coder.old.free)) }
{
    match expr {
        Expr::Constant(word) => Ok(Index::plain(Operand::Constant(*word))),
        Expr::Variable(x) => Ok(Index::plain(variable(scope, *x))),
        Expr::Element { .. } => {
            let value = in_register(scope, shares, expr, coder)?;
            Ok(Index::plain(value))
        }
        Expr::Unary { .. } => {
            let value = in_register(scope, shares, expr, coder)?;
            Ok(Index::plain(value))
        }
        Expr::Binary {
            operator,
            left,
            right,
        } => match split(*operator, leaf(scope, left), leaf(scope, right)) {
            Side::Right(constant) => {
                let part = operand(scope, shares, left, coder)?;
                Ok(Index { part, constant })
            }
            Side::Left(constant) => {
                let part = operand(scope, shares, right, coder)?;
                Ok(Index { part, constant })
            }
            Side::Whole => {
                let value = in_register(scope, shares, expr, coder)?;
                Ok(Index::plain(value))
            }
        },
    }
}
