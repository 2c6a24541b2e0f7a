// Tests.
ghost use Rattle.std.specs.Prelude.{◌≡◌, IfOk};
ghost use Rattle.high_ir.specs.View.{expr_of};
ghost use Rattle.lower_expression.specs.Behind.{after_tested};
ghost use Rattle.lower_expression.specs.View.{code_of, scope_of, shares_of, tested_in};
ghost use Rattle.lower_coder.specs.declared.coder.Coder.{Coder};
ghost use Rattle.lower_definition.specs.Values.{branch_by, inverted, operand, tested, unless_zero};

use super::scope::Scope;
use super::sharing::Share;
use super::walk::operand;
use high_ir::expression::{Expr, UnaryOperator};
use low_ir::Operand;
use lower_coder::Coder;
use lower_coder::operators::{condition_of, inverse};
use rv_core::Condition;
use wcc_base::Memory;

/// The branch that is taken where a test isn't 0.
#[derive(Clone, Copy)]
pub struct Comparison {
    pub condition: Condition,
    pub left: Operand,
    pub right: Operand,
}

impl Comparison {
    fn inverted(self) -> Comparison
        ensures { (c : Coder) → tested_in c result ≡ inverted (tested_in c self) }
    {
        Comparison {
            condition: inverse(self.condition),
            left: self.left,
            right: self.right,
        }
    }
}

/// A branch by any value.
fn unless_zero(
    scope: &Scope,
    shares: &[Share],
    expr: &Expr,
    coder: &mut Coder,
) -> Result<Comparison, Memory>
    ensures { IfOk result (λ b. tested_in coder.new b ≡ after_tested (code_of coder.old) (unless_zero (operand (scope_of scope.now) (shares_of shares.now) (expr_of expr.now) coder.old.free))) }
{
    let left = operand(scope, shares, expr, coder)?;
    Ok(Comparison {
        condition: Condition::NotEqual,
        left,
        right: Operand::Constant(0),
    })
}

/// A branch by a condition on two values.
fn compared(
    scope: &Scope,
    shares: &[Share],
    condition: Condition,
    left: &Expr,
    right: &Expr,
    coder: &mut Coder,
) -> Result<Comparison, Memory>
    ensures { IfOk result (λ b. tested_in coder.new b ≡ after_tested (code_of coder.old) (branch_by condition (operand (scope_of scope.now) (shares_of shares.now) (expr_of left.now) coder.old.free) (operand (scope_of scope.now) (shares_of shares.now) (expr_of right.now) (operand (scope_of scope.now) (shares_of shares.now) (expr_of left.now) coder.old.free).free))) }
{
    let left = operand(scope, shares, left, coder)?;
    let right = operand(scope, shares, right, coder)?;
    Ok(Comparison {
        condition,
        left,
        right,
    })
}

/// The branch that is taken where a test isn't 0.
pub fn tested(
    scope: &Scope,
    shares: &[Share],
    test: &Expr,
    coder: &mut Coder,
) -> Result<Comparison, Memory>
    ensures { IfOk result (λ b. tested_in coder.new b ≡ after_tested (code_of coder.old) (tested (scope_of scope.now) (shares_of shares.now) (expr_of test.now) coder.old.free)) }
{
    match test {
        Expr::Constant(_) => unless_zero(scope, shares, test, coder),
        Expr::Variable(_) => unless_zero(scope, shares, test, coder),
        Expr::Element { .. } => unless_zero(scope, shares, test, coder),
        Expr::Unary { operator, operand } => match operator {
            UnaryOperator::IsZero => {
                let inner = tested(scope, shares, operand, coder)?;
                Ok(inner.inverted())
            }
            UnaryOperator::Negate => unless_zero(scope, shares, test, coder),
            UnaryOperator::Complement => unless_zero(scope, shares, test, coder),
            UnaryOperator::Convert(_) => unless_zero(scope, shares, test, coder),
        },
        Expr::Binary {
            operator,
            left,
            right,
        } => match condition_of(*operator) {
            None => unless_zero(scope, shares, test, coder),
            Some(condition) => compared(scope, shares, condition, left, right, coder),
        },
    }
}
