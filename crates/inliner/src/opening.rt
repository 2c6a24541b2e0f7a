// A call with the body of its function in its place.
ghost use Rattle.std.specs.Prelude.{◌≡◌, ◌+◌, IfOk, map};
ghost use Rattle.high_code.specs.Code.{alone, joined};
ghost use Rattle.high_ir.specs.Tree.{Block, End, Mark, Seq, Set, Then};
ghost use Rattle.high_ir.specs.View.{expr_of, statement_of, statements_of};
ghost use Rattle.inliner.specs.Moving.{moved};
ghost use Rattle.inliner.specs.Opening.{assigned, call_of, opening};
ghost use Rattle.inliner.specs.View.{site_of};

use super::moving::{Place, moved};
use high_again::expressions::copied_expr;
use high_again::statements::copied_call;
use high_ir::expression::Expr;
use high_ir::object::Base;
use high_ir::statement::Statement;
use high_ir::statements::{block, let_go};
use high_renumber::numbers::offset;
use std::alloc::Global;
use wcc_base::Memory;

/// What a call says.
#[derive(Clone, Copy)]
pub struct Call<'a> {
    pub alloc: Global,
    pub function: u32,
    pub values: &'a [Expr],
    pub arrays: &'a [Base],
    pub into: Option<u32>,
}

/// The call as it is.
pub fn kept(call: &Call) -> Result<Statement, Memory>
    ensures { IfOk result (λ s. statement_of s ≡ call_of (site_of call.now)) }
{
    copied_call(
        call.alloc,
        call.function,
        call.values,
        call.arrays,
        call.into,
    )
}

/// A value, written to a variable that is so many behind `base`.
fn set(alloc: Global, base: u32, behind: usize, value: &Expr) -> Result<Statement, Memory>
    ensures { IfOk result (λ s. statement_of s ≡ Set (base + behind) (expr_of value.now)) }
{
    let variable = offset(base, behind)?;
    let value = copied_expr(alloc, value)?;
    Ok(Statement::Set { variable, value })
}

/// The opening mark of the function, and then the values, written to variables from `base` on.
fn begun(call: &Call, base: u32) -> Result<Vec<Statement>, Memory>
    ensures { IfOk result (λ v. statements_of v.items ≡ Then (Mark call.now.function) (assigned base (map expr_of call.now.values.now) End)) }
{
    let mut parts = Vec::new(call.alloc);
    parts.push(Statement::Mark { id: call.function })?;
    for i in 0..call.values.len() {
        parts.push(set(call.alloc, base, i, &call.values[i])?)?;
    }
    Ok(parts)
}

/// Statements, one after another, and then one more.
fn seq_with(parts: Vec<Statement>, last: Statement) -> Result<Statement, Memory>
    ensures { IfOk result (λ s. statement_of s ≡ Seq (joined (statements_of parts.items) (alone (statement_of last)))) }
{
    let mut parts = parts;
    parts.push(last)?;
    Ok(Statement::Seq(parts))
}

/// The body of the function in a block.
fn in_block(call: &Call, base: u32, body: &Statement) -> Result<Statement, Memory>
    ensures { IfOk result (λ s. statement_of s ≡ Block (moved (record { base = base; arrays = call.now.arrays.now; into = call.now.into }) 0 (statement_of body.now))) }
{
    let place = Place {
        alloc: call.alloc,
        base,
        arrays: call.arrays,
        into: call.into,
    };
    let body = moved(&place, 0, body)?;
    block(call.alloc, body)
}

/// The opening mark of the function, the values as its first variables, which stand from `base` on, and its body in a
/// block.
pub fn opening(call: &Call, base: u32, body: &Statement) -> Result<Statement, Memory>
    ensures { IfOk result (λ s. statement_of s ≡ opening (site_of call.now) base (statement_of body.now)) }
{
    let body = in_block(call, base, body)?;
    match begun(call, base) {
        Ok(parts) => seq_with(parts, body),
        Err(memory) => {
            let_go(body);
            Err(memory)
        }
    }
}
