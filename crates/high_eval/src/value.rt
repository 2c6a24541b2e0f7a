// The values of expressions.
ghost use Rattle.std.specs.Prelude.{◌≡◌, map, IfOk};
ghost use Rattle.high_ir.specs.Meaning.{objects_of, value_of, values_of};
ghost use Rattle.high_ir.specs.View.{expr_of};
ghost use Rattle.high_eval.specs.Ends.{items_of};

use super::state::{State, object_number};
use high_ir::expression::Expr;
use high_ir::object::Base;
use std::alloc::Global;
use wcc_base::Memory;

/// The value of an expression, or none where the run is not good.
pub fn value(state: &State, passed: &[u32], expr: &Expr) -> Option<u32>
    ensures { result ≡ value_of passed.now state.now.variables state.now.world (expr_of expr.now) }
{
    match expr {
        Expr::Constant(word) => Some(*word),
        Expr::Variable(variable) => state.variable(*variable),
        Expr::Element { array, index } => match value(state, passed, index) {
            None => None,
            Some(index) => state.element(passed, *array, index),
        },
        Expr::Unary { operator, operand } => match value(state, passed, operand) {
            None => None,
            Some(word) => Some(operator.apply(word)),
        },
        Expr::Binary {
            operator,
            left,
            right,
        } => {
            let Some(left) = value(state, passed, left) else {
                return None;
            };
            match value(state, passed, right) {
                None => None,
                Some(right) => Some(operator.apply(left, right)),
            }
        }
    }
}

pub fn values(
    alloc: Global,
    state: &State,
    passed: &[u32],
    exprs: &[Expr],
) -> Result<Option<Vec<u32>>, Memory>
    ensures { IfOk result (λ r. values_of passed.now state.now.variables state.now.world (map expr_of exprs.now) ≡ items_of r) }
{
    let mut words = Vec::new(alloc);
    for expr in exprs {
        match value(state, passed, expr) {
            None => return Ok(None),
            Some(word) => words.push(word)?,
        }
    }
    Ok(Some(words))
}

/// The numbers of the objects that are passed.
pub fn numbers(alloc: Global, passed: &[u32], bases: &[Base]) -> Result<Option<Vec<u32>>, Memory>
    ensures { IfOk result (λ r. objects_of passed.now bases.now ≡ items_of r) }
{
    let mut numbers = Vec::new(alloc);
    for base in bases {
        match object_number(passed, *base) {
            None => return Ok(None),
            Some(number) => numbers.push(number)?,
        }
    }
    Ok(Some(numbers))
}
