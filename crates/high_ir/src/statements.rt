// Statements, one at a time.
ghost use Rattle.std.specs.Prelude.{◌≡◌, IfOk};
ghost use Rattle.high_ir.specs.Tree.{Block, If, Loop};
ghost use Rattle.high_ir.specs.View.{expr_of, statement_of};

use super::expression::Expr;
use super::expressions::let_go_expr;
use super::statement::Statement;
use std::alloc::Global;
use wcc_base::Memory;

fn boxed(alloc: Global, statement: Statement) -> Result<Box<Statement>, Memory>
    ensures { IfOk result (λ b. b.value ≡ statement) }
{
    Ok(Box::new(alloc, statement)?)
}

/// Lets go of a statement. What it is made of is let go here, once.
pub fn let_go(statement: Statement) {
    drop(statement);
}

pub fn block(alloc: Global, body: Statement) -> Result<Statement, Memory>
    ensures { IfOk result (λ s. statement_of s ≡ Block (statement_of body)) }
{
    Ok(Statement::Block(boxed(alloc, body)?))
}

/// A loop of this number, whose starts are from `min` to `max`.
pub fn loop_of(
    alloc: Global,
    id: u32,
    min: u32,
    max: u32,
    body: Statement,
) -> Result<Statement, Memory>
    ensures { IfOk result (λ s. statement_of s ≡ Loop id min max (statement_of body)) }
{
    Ok(Statement::Loop {
        id,
        min,
        max,
        body: boxed(alloc, body)?,
    })
}

fn branches(
    alloc: Global,
    first: Statement,
    other: Statement,
) -> Result<(Box<Statement>, Box<Statement>), Memory>
    ensures first { IfOk result (λ p. p.0.value ≡ first) }
    ensures other { IfOk result (λ p. p.1.value ≡ other) }
{
    let first = match boxed(alloc, first) {
        Ok(first) => first,
        Err(memory) => {
            let_go(other);
            return Err(memory);
        }
    };
    match boxed(alloc, other) {
        Ok(other) => Ok((first, other)),
        Err(memory) => {
            drop(first);
            Err(memory)
        }
    }
}

/// A choice between two statements.
pub fn choice(
    alloc: Global,
    test: Expr,
    first: Statement,
    other: Statement,
) -> Result<Statement, Memory>
    ensures { IfOk result (λ s. statement_of s ≡ If (expr_of test) (statement_of first) (statement_of other)) }
{
    match branches(alloc, first, other) {
        Ok((first, other)) => Ok(Statement::If { test, first, other }),
        Err(memory) => {
            let_go_expr(test);
            Err(memory)
        }
    }
}
