// Which values code leaves as they are.
ghost use Rattle.std.specs.Prelude.{◌≡◌, ◌+◌};
ghost use Rattle.make_pieces.specs.View.{code_of};
ghost use Rattle.high_code.specs.Code.{assigns, assigns_any, assigns_into};
ghost use Rattle.high_ir.specs.View.{expr_of, statement_of, statements_of};
ghost use Rattle.plan_definition.specs.Values.{is_changed, is_variable};

use super::code::Code;
use high_ir::expression::Expr;
use high_ir::statement::Statement;

fn assigns_into(x: u32, into: Option<u32>) -> bool
    ensures { result ≡ assigns_into x into }
{
    match into {
        None => false,
        Some(y) => y == x,
    }
}

/// Whether a statement assigns a variable.
#[cycle(assigns)]
fn assigns(x: u32, statement: &Statement) -> bool
    ensures { result ≡ assigns x (statement_of statement.now) }
{
    match statement {
        Statement::Set { variable, .. } => *variable == x,
        Statement::Put { .. } => false,
        Statement::Get { into } => *into == x,
        Statement::Keep { .. } => false,
        Statement::Mark { .. } => false,
        Statement::Seq(parts) => {
            let any = assigns_any(x, parts);
            any
        }
        Statement::If { first, other, .. } => {
            if assigns(x, first) {
                return true;
            }
            assigns(x, other)
        }
        Statement::Loop { body, .. } => assigns(x, body),
        Statement::Block(body) => assigns(x, body),
        Statement::Leave { .. } => false,
        Statement::Call { into, .. } => assigns_into(x, *into),
        Statement::Return { .. } => false,
    }
}

#[cycle(assigns)]
fn assigns_any(x: u32, statements: &[Statement]) -> bool
    ensures { result ≡ assigns_any x (statements_of statements.now) }
{
    for statement in statements {
        if assigns(x, statement) {
            return true;
        }
    }
    false
}

/// Whether code may change a value that was computed before it.
pub fn is_changed(value: &Expr, code: &Code) -> bool
    ensures { result ≡ is_changed (expr_of value.now) (code_of code.now) }
{
    match value {
        Expr::Constant(_) => false,
        Expr::Variable(x) => assigns_any(*x, &code.statements),
        Expr::Element { .. } => true,
        Expr::Unary { .. } => true,
        Expr::Binary { .. } => true,
    }
}

/// Whether a value is that of the variable behind `k`.
pub fn is_next(k: u32, value: &Expr) -> bool
    ensures { result ≡ is_variable (k + 1) (expr_of value.now) }
{
    match value {
        Expr::Variable(y) => *y != 0 && *y - 1 == k,
        Expr::Constant(_) => false,
        Expr::Element { .. } => false,
        Expr::Unary { .. } => false,
        Expr::Binary { .. } => false,
    }
}
