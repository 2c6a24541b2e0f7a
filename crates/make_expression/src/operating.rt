// Operators between two values.
ghost use Rattle.std.specs.Prelude.{◌≡◌, IfOk};
ghost use Rattle.types_value.specs.Kinds.{is_signed};
ghost use Rattle.make_pieces.specs.View.{code_of, valued_of};
ghost use Rattle.high_ir.specs.View.{expr_of};
ghost use Rattle.plan_definition.specs.Operators.{convert, operated};
ghost use Rattle.plan_definition.specs.Values.{operated_on};

use high_ir::expression::Expr;
use high_ir::expressions::let_go_expr;
use make_pieces::Valued;
use make_pieces::operators::{convert, operated};
use std::alloc::Global;
use types_value::{Kind, Operator};
use wcc_base::Memory;

/// An operator on two values, where the code of both was made.
fn operate_kept(
    alloc: Global,
    operator: Operator,
    kind: Kind,
    left: Valued,
    right: Expr,
) -> Result<Valued, Memory>
    ensures code { IfOk result (λ v. code_of v.code ≡ code_of left.code) }
    ensures value { IfOk result (λ v. expr_of v.value ≡ operated operator (is_signed kind) (expr_of left.value) (expr_of right)) }
{
    let Valued { code, value: left } = left;
    match operated(alloc, operator, kind.is_signed(), left, right) {
        Ok(value) => Ok(Valued { code, value }),
        Err(memory) => {
            code.let_go();
            Err(memory)
        }
    }
}

/// An operator on two values, the left one made before the right one.
pub fn operate(
    alloc: Global,
    operator: Operator,
    kind: Kind,
    k: u32,
    left: Valued,
    right: Valued,
) -> Result<Valued, Memory>
    ensures { IfOk result (λ v. valued_of v ≡ operated_on operator kind k (valued_of left) (valued_of right)) }
{
    let Valued { code, value: right } = right;
    match left.kept(k, code) {
        Ok(left) => operate_kept(alloc, operator, kind, left, right),
        Err(memory) => {
            let_go_expr(right);
            Err(memory)
        }
    }
}

/// The value of a compound assignment, computed at a type from the old value.
pub fn new_value(
    alloc: Global,
    operator: Operator,
    kind: Kind,
    old: Expr,
    right: Expr,
) -> Result<Expr, Memory>
    ensures { IfOk result (λ e. expr_of e ≡ operated operator (is_signed kind) (convert kind (expr_of old)) (expr_of right)) }
{
    match convert(alloc, kind, old) {
        Ok(old) => operated(alloc, operator, kind.is_signed(), old, right),
        Err(memory) => {
            let_go_expr(right);
            Err(memory)
        }
    }
}
