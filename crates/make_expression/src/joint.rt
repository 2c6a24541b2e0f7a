// Tests that are made of jumps.
ghost use Rattle.std.specs.Prelude.{◌≡◌};
ghost use Rattle.types_tree.specs.View.{expr_of};
ghost use Rattle.plan_definition.specs.Values.{is_joint};

use types_tree::expression::Expr;
use types_value::Sign;

/// Whether a test is made of jumps: of `&&`, `||`, and `!` of one of these.
pub fn is_joint(test: &Expr) -> bool
    ensures { result ≡ is_joint (expr_of test.now) }
{
    match test {
        Expr::And { .. } => true,
        Expr::Or { .. } => true,
        Expr::Paren { inner, .. } => is_joint(inner),
        Expr::Sign {
            operator,
            operand,
            ..
        } => match operator {
            Sign::Not => is_joint(operand),
            Sign::Negate => false,
            Sign::Plus => false,
            Sign::Complement => false,
        },
        Expr::Number { .. } => false,
        Expr::Character { .. } => false,
        Expr::Read(_) => false,
        Expr::Array { .. } => false,
        Expr::Call { .. } => false,
        Expr::Step { .. } => false,
        Expr::Cast { .. } => false,
        Expr::Convert { .. } => false,
        Expr::Operate { .. } => false,
        Expr::Comma { .. } => false,
        Expr::Conditional { .. } => false,
        Expr::Assign { .. } => false,
        Expr::Update { .. } => false,
    }
}
