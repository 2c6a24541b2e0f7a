// The walk that numbers marks and loops.
ghost use Rattle.std.specs.Prelude.{◌≡◌, ◌++◌, IfOk, length, map};
ghost use Rattle.high_ir.specs.Standing.{loops_in, loops_of, loops_of_all, marks_in, marks_of, marks_of_all};
ghost use Rattle.high_ir.specs.Tree.{If};
ghost use Rattle.high_ir.specs.View.{expr_of, function_of, statement_of, statements_of};
ghost use Rattle.high_renumber.specs.Numbered.{function_numbered, functions_numbered, ids, numbered, numbered_all};

use super::numbers::offset;
use high_again::expressions::copied_expr;
use high_again::statements::copied;
use high_ir::Function;
use high_ir::expression::Expr;
use high_ir::statement::Statement;
use high_ir::statements::{block, choice, let_go, loop_of};
use std::alloc::Global;
use wcc_base::Memory;

/// Which marks and loops those with numbers are copies of, by these numbers.
#[derive(Drop)]
pub struct Origins {
    pub marks: Vec<u32>,
    pub loops: Vec<u32>,
}

/// A statement with the next numbers.
#[cycle(statements)]
fn numbered(
    alloc: Global,
    statement: &Statement,
    origins: &mut Origins,
) -> Result<Statement, Memory>
    ensures made { IfOk result (λ s. statement_of s ≡ numbered (length origins.old.marks.items) (length origins.old.loops.items) (statement_of statement.now)) }
    ensures marks { IfOk result (λ _. origins.new.marks.items ≡ origins.old.marks.items ++ marks_of (statement_of statement.now)) }
    ensures loops { IfOk result (λ _. origins.new.loops.items ≡ origins.old.loops.items ++ ids (loops_of (statement_of statement.now))) }
{
    match statement {
        Statement::Set { .. } => Ok(copied(alloc, statement)?),
        Statement::Put { .. } => Ok(copied(alloc, statement)?),
        Statement::Get { .. } => Ok(copied(alloc, statement)?),
        Statement::Keep { .. } => Ok(copied(alloc, statement)?),
        Statement::Mark { id } => {
            let number = offset(0, origins.marks.len())?;
            origins.marks.push(*id)?;
            Ok(Statement::Mark { id: number })
        }
        Statement::Seq(parts) => {
            let made = numbered_all(alloc, parts, origins)?;
            Ok(Statement::Seq(made))
        }
        Statement::If { test, first, other } => {
            let first = numbered(alloc, first, origins)?;
            let made = numbered_if(alloc, test, first, other, origins)?;
            Ok(made)
        }
        Statement::Loop { id, min, max, body } => {
            let number = offset(0, origins.loops.len())?;
            origins.loops.push(*id)?;
            let body = numbered(alloc, body, origins)?;
            Ok(loop_of(alloc, number, *min, *max, body)?)
        }
        Statement::Block(body) => {
            let body = numbered(alloc, body, origins)?;
            Ok(block(alloc, body)?)
        }
        Statement::Leave { .. } => Ok(copied(alloc, statement)?),
        Statement::Call { .. } => Ok(copied(alloc, statement)?),
        Statement::Return { .. } => Ok(copied(alloc, statement)?),
    }
}

/// A choice whose first way is numbered.
#[cycle(statements)]
fn numbered_if(
    alloc: Global,
    test: &Expr,
    first: Statement,
    other: &Statement,
    origins: &mut Origins,
) -> Result<Statement, Memory>
    ensures made { IfOk result (λ s. statement_of s ≡ If (expr_of test.now) (statement_of first) (numbered (length origins.old.marks.items) (length origins.old.loops.items) (statement_of other.now))) }
    ensures marks { IfOk result (λ _. origins.new.marks.items ≡ origins.old.marks.items ++ marks_of (statement_of other.now)) }
    ensures loops { IfOk result (λ _. origins.new.loops.items ≡ origins.old.loops.items ++ ids (loops_of (statement_of other.now))) }
{
    match numbered(alloc, other, origins) {
        Ok(other) => match copied_expr(alloc, test) {
            Ok(test) => Ok(choice(alloc, test, first, other)?),
            Err(memory) => {
                let_go(first);
                let_go(other);
                Err(memory)
            }
        },
        Err(memory) => {
            let_go(first);
            Err(memory)
        }
    }
}

#[cycle(statements)]
fn numbered_all(
    alloc: Global,
    parts: &[Statement],
    origins: &mut Origins,
) -> Result<Vec<Statement>, Memory>
    ensures made { IfOk result (λ v. statements_of v.items ≡ numbered_all (length origins.old.marks.items) (length origins.old.loops.items) (statements_of parts.now)) }
    ensures marks { IfOk result (λ _. origins.new.marks.items ≡ origins.old.marks.items ++ marks_of_all (statements_of parts.now)) }
    ensures loops { IfOk result (λ _. origins.new.loops.items ≡ origins.old.loops.items ++ ids (loops_of_all (statements_of parts.now))) }
{
    let mut made = Vec::new(alloc);
    for part in parts {
        made.push(numbered(alloc, part, origins)?)?;
    }
    Ok(made)
}

fn function_numbered(
    alloc: Global,
    function: &Function,
    origins: &mut Origins,
) -> Result<Function, Memory>
    ensures made { IfOk result (λ f. function_of f ≡ function_numbered (length origins.old.marks.items) (length origins.old.loops.items) (function_of function.now)) }
    ensures marks { IfOk result (λ _. origins.new.marks.items ≡ origins.old.marks.items ++ marks_of (function_of function.now).body) }
    ensures loops { IfOk result (λ _. origins.new.loops.items ≡ origins.old.loops.items ++ ids (loops_of (function_of function.now).body)) }
{
    let body = numbered(alloc, &function.body, origins)?;
    Ok(Function {
        values: function.values,
        arrays: function.arrays,
        locals: function.locals,
        rank: function.rank,
        body,
    })
}

/// Functions with the next numbers.
pub fn functions_numbered(
    alloc: Global,
    functions: &[Function],
    origins: &mut Origins,
) -> Result<Vec<Function>, Memory>
    ensures made { IfOk result (λ v. map function_of v.items ≡ functions_numbered (length origins.old.marks.items) (length origins.old.loops.items) (map function_of functions.now)) }
    ensures marks { IfOk result (λ _. origins.new.marks.items ≡ origins.old.marks.items ++ marks_in (map function_of functions.now)) }
    ensures loops { IfOk result (λ _. origins.new.loops.items ≡ origins.old.loops.items ++ ids (loops_in (map function_of functions.now))) }
{
    let mut made = Vec::new(alloc);
    for function in functions {
        made.push(function_numbered(alloc, function, origins)?)?;
    }
    Ok(made)
}
