// Ends of functions.
ghost use Rattle.std.specs.Prelude.{◌≡◌, IfOk};
ghost use Rattle.c_tree.specs.Named.{map_option};
ghost use Rattle.types_tree.specs.View.{expr_of as source_of};
ghost use Rattle.plan_definition.specs.Statements.{returned};
ghost use Rattle.make_pieces.specs.View.{code_of};
ghost use Rattle.make_statement.specs.Planned.{plan_said};

use super::plan::Plan;
use high_ir::expression::Expr;
use high_ir::statement::Statement;
use make_expression::value;
use make_pieces::{Code, Valued};
use types_tree::expression::Expr as Source;
use wcc_base::Memory;

/// An end of the function.
pub fn returned(plan: &Plan, expr: &Option<Source>, k: u32) -> Result<Code, Memory>
    ensures { IfOk result (λ c. code_of c ≡ returned (plan_said plan.now) (map_option source_of expr.now) k) }
{
    match expr {
        None => Code::alone(
            plan.scope.alloc,
            Statement::Return {
                value: Expr::Constant(0),
            },
        ),
        Some(expr) => {
            let Valued { code, value } = value(&plan.scope, expr, k)?;
            code.then(Statement::Return { value })
        }
    }
}
