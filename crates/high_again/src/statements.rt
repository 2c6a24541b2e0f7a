// Statements, made again.
ghost use Rattle.std.specs.Prelude.{◌≡◌, IfOk, map};
ghost use Rattle.high_ir.specs.Tree.{Call, If, Keep};
ghost use Rattle.high_ir.specs.View.{expr_of, statement_of};

use super::expressions::{copied_expr, copied_exprs};
use high_ir::expression::Expr;
use high_ir::expressions::let_go_expr;
use high_ir::object::{Array, Base};
use high_ir::statement::Statement;
use high_ir::statements::{block, choice, let_go, loop_of};
use std::alloc::Global;
use wcc_base::Memory;

fn copied_keep(alloc: Global, array: Array, index: &Expr, value: &Expr) -> Result<Statement, Memory>
    ensures { IfOk result (λ s. statement_of s ≡ Keep array (expr_of index.now) (expr_of value.now)) }
{
    let index = copied_expr(alloc, index)?;
    match copied_expr(alloc, value) {
        Ok(value) => Ok(Statement::Keep {
            array,
            index,
            value,
        }),
        Err(memory) => {
            let_go_expr(index);
            Err(memory)
        }
    }
}

/// The same call again.
pub fn copied_call(
    alloc: Global,
    function: u32,
    values: &[Expr],
    arrays: &[Base],
    into: Option<u32>,
) -> Result<Statement, Memory>
    ensures { IfOk result (λ s. statement_of s ≡ Call function (map expr_of values.now) arrays.now into) }
{
    let arrays = Vec::from_slice(alloc, arrays)?;
    Ok(Statement::Call {
        function,
        values: copied_exprs(alloc, values)?,
        arrays,
        into,
    })
}

/// The same statement again.
#[cycle(statements)]
pub fn copied(alloc: Global, statement: &Statement) -> Result<Statement, Memory>
    ensures { IfOk result (λ s. statement_of s ≡ statement_of statement.now) }
{
    match statement {
        Statement::Set { variable, value } => Ok(Statement::Set {
            variable: *variable,
            value: copied_expr(alloc, value)?,
        }),
        Statement::Put { value } => Ok(Statement::Put {
            value: copied_expr(alloc, value)?,
        }),
        Statement::Get { into } => Ok(Statement::Get { into: *into }),
        Statement::Keep {
            array,
            index,
            value,
        } => Ok(copied_keep(alloc, *array, index, value)?),
        Statement::Mark { id } => Ok(Statement::Mark { id: *id }),
        Statement::Seq(parts) => {
            let made = copied_all(alloc, parts)?;
            Ok(Statement::Seq(made))
        }
        Statement::If { test, first, other } => Ok(copied_choice(alloc, test, first, other)?),
        Statement::Loop { id, min, max, body } => {
            let body = copied(alloc, body)?;
            Ok(loop_of(alloc, *id, *min, *max, body)?)
        }
        Statement::Block(body) => Ok(block(alloc, copied(alloc, body)?)?),
        Statement::Leave { depth } => Ok(Statement::Leave { depth: *depth }),
        Statement::Call {
            function,
            values,
            arrays,
            into,
        } => Ok(copied_call(alloc, *function, values, arrays, *into)?),
        Statement::Return { value } => Ok(Statement::Return {
            value: copied_expr(alloc, value)?,
        }),
    }
}

#[cycle(statements)]
fn copied_all(alloc: Global, parts: &[Statement]) -> Result<Vec<Statement>, Memory>
    ensures { IfOk result (λ v. map statement_of v.items ≡ map statement_of parts.now) }
{
    let mut made = Vec::new(alloc);
    for part in parts {
        made.push(copied(alloc, part)?)?;
    }
    Ok(made)
}

#[cycle(statements)]
fn copied_choice(
    alloc: Global,
    test: &Expr,
    first: &Statement,
    other: &Statement,
) -> Result<Statement, Memory>
    ensures { IfOk result (λ s. statement_of s ≡ If (expr_of test.now) (statement_of first.now) (statement_of other.now)) }
{
    let test = copied_expr(alloc, test)?;
    match copied_ways(alloc, first, other) {
        Ok((first, other)) => Ok(choice(alloc, test, first, other)?),
        Err(memory) => {
            let_go_expr(test);
            Err(memory)
        }
    }
}

/// Both ways of a choice.
#[cycle(statements)]
fn copied_ways(
    alloc: Global,
    first: &Statement,
    other: &Statement,
) -> Result<(Statement, Statement), Memory>
    ensures first { IfOk result (λ w. statement_of w.0 ≡ statement_of first.now) }
    ensures other { IfOk result (λ w. statement_of w.1 ≡ statement_of other.now) }
{
    let made = copied(alloc, first)?;
    match copied(alloc, other) {
        Ok(other) => Ok((made, other)),
        Err(memory) => {
            let_go(made);
            Err(memory)
        }
    }
}
