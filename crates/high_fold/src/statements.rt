// The walk over statements.
ghost use Rattle.std.specs.Prelude.{◌≡◌, ◌+◌, ◌++◌, IfOk, OnOk, length, map};
ghost use Rattle.high_ir.specs.Tree.{Call, If, Keep, Loop};
ghost use Rattle.high_ir.specs.View.{expr_of, statement_of, statements_of};
ghost use Rattle.high_folded.specs.Folded.{folded, folded_all, folded_expr, kept_all, kept_loops, stored_expr};

use super::expressions::{constant_of, folded_expr, folded_exprs, stored_expr};
use high_ir::expression::Expr;
use high_ir::expressions::let_go_expr;
use high_ir::object::{Array, Base, Kind};
use high_ir::statement::Statement;
use high_ir::statements::{block, choice, let_go, loop_of};
use std::alloc::Global;
use wcc_base::Memory;

/// The number of the next loop that stays.
pub fn next_number(kept: &[u32]) -> Result<u32, Memory>
    ensures { IfOk result (λ n. n ≡ length kept.now) }
{
    match u32::try_from(kept.len()) {
        Ok(number) => Ok(number),
        Err(_) => Err(Memory),
    }
}

fn folded_keep(alloc: Global, array: Array, index: &Expr, value: &Expr) -> Result<Statement, Memory>
    ensures { IfOk result (λ s. statement_of s ≡ Keep array (folded_expr (expr_of index.now)) (stored_expr array.kind (expr_of value.now))) }
{
    let index = folded_expr(alloc, index)?;
    match stored_expr(alloc, array.kind, value) {
        Ok(value) => Ok(Statement::Keep {
            array,
            index,
            value,
        }),
        Err(memory) => {
            let_go_expr(index);
            Err(memory)
        }
    }
}

fn folded_call(
    alloc: Global,
    function: u32,
    values: &[Expr],
    arrays: &[Base],
    into: Option<u32>,
) -> Result<Statement, Memory>
    ensures { IfOk result (λ s. statement_of s ≡ Call function (map folded_expr (map expr_of values.now)) arrays.now into) }
{
    let arrays = Vec::from_slice(alloc, arrays)?;
    Ok(Statement::Call {
        function,
        values: folded_exprs(alloc, values)?,
        arrays,
        into,
    })
}

/// A statement with what is known computed; `kept` gets the numbers of the loops that stay.
#[cycle(statements)]
pub fn folded(
    alloc: Global,
    statement: &Statement,
    kept: &mut Vec<u32>,
) -> Result<Statement, Memory>
    ensures made { IfOk result (λ s. statement_of s ≡ folded (length kept.old.items) (statement_of statement.now)) }
    ensures kept { OnOk result (kept.new.items ≡ kept.old.items ++ kept_loops (statement_of statement.now)) }
{
    match statement {
        Statement::Set { variable, value } => Ok(Statement::Set {
            variable: *variable,
            value: folded_expr(alloc, value)?,
        }),
        Statement::Put { value } => Ok(Statement::Put {
            value: stored_expr(alloc, Kind::Unsigned8, value)?,
        }),
        Statement::Get { into } => Ok(Statement::Get { into: *into }),
        Statement::Keep {
            array,
            index,
            value,
        } => Ok(folded_keep(alloc, *array, index, value)?),
        Statement::Mark { id } => Ok(Statement::Mark { id: *id }),
        Statement::Seq(parts) => {
            let made = folded_all(alloc, parts, kept)?;
            Ok(Statement::Seq(made))
        }
        Statement::If { test, first, other } => {
            Ok(folded_choice(alloc, test, first, other, kept)?)
        }
        Statement::Loop { id, min, max, body } => {
            let turns = Turns {
                id: *id,
                min: *min,
                max: *max,
            };
            Ok(folded_loop(alloc, turns, body, kept)?)
        }
        Statement::Block(body) => Ok(block(alloc, folded(alloc, body, kept)?)?),
        Statement::Leave { depth } => Ok(Statement::Leave { depth: *depth }),
        Statement::Call {
            function,
            values,
            arrays,
            into,
        } => Ok(folded_call(alloc, *function, values, arrays, *into)?),
        Statement::Return { value } => Ok(Statement::Return {
            value: folded_expr(alloc, value)?,
        }),
    }
}

#[cycle(statements)]
fn folded_all(
    alloc: Global,
    parts: &[Statement],
    kept: &mut Vec<u32>,
) -> Result<Vec<Statement>, Memory>
    ensures made { IfOk result (λ v. statements_of v.items ≡ folded_all (length kept.old.items) (statements_of parts.now)) }
    ensures kept { OnOk result (kept.new.items ≡ kept.old.items ++ kept_all (statements_of parts.now)) }
{
    let mut made = Vec::new(alloc);
    for part in parts {
        made.push(folded(alloc, part, kept)?)?;
    }
    Ok(made)
}

/// A choice: the way that a constant test takes, or both.
#[cycle(statements)]
fn folded_choice(
    alloc: Global,
    test: &Expr,
    first: &Statement,
    other: &Statement,
    kept: &mut Vec<u32>,
) -> Result<Statement, Memory>
    ensures made { IfOk result (λ s. statement_of s ≡ folded (length kept.old.items) (If (expr_of test.now) (statement_of first.now) (statement_of other.now))) }
    ensures kept { OnOk result (kept.new.items ≡ kept.old.items ++ kept_loops (If (expr_of test.now) (statement_of first.now) (statement_of other.now))) }
{
    let test = folded_expr(alloc, test)?;
    match constant_of(&test) {
        None => match folded_ways(alloc, first, other, kept) {
            Ok((first, other)) => Ok(choice(alloc, test, first, other)?),
            Err(memory) => {
                let_go_expr(test);
                Err(memory)
            }
        },
        Some(0) => {
            let_go_expr(test);
            Ok(folded(alloc, other, kept)?)
        }
        Some(_) => {
            let_go_expr(test);
            Ok(folded(alloc, first, kept)?)
        }
    }
}

/// Both ways of a choice.
#[cycle(statements)]
fn folded_ways(
    alloc: Global,
    first: &Statement,
    other: &Statement,
    kept: &mut Vec<u32>,
) -> Result<(Statement, Statement), Memory>
    ensures first { IfOk result (λ w. statement_of w.0 ≡ folded (length kept.old.items) (statement_of first.now)) }
    ensures other { IfOk result (λ w. statement_of w.1 ≡ folded (length kept.old.items + length (kept_loops (statement_of first.now))) (statement_of other.now)) }
    ensures kept { OnOk result (kept.new.items ≡ kept.old.items ++ (kept_loops (statement_of first.now) ++ kept_loops (statement_of other.now))) }
{
    let made = folded(alloc, first, kept)?;
    match folded(alloc, other, kept) {
        Ok(other) => Ok((made, other)),
        Err(memory) => {
            let_go(made);
            Err(memory)
        }
    }
}

/// What a loop is: its number, and how often it starts its body.
#[derive(Clone, Copy)]
struct Turns {
    id: u32,
    min: u32,
    max: u32,
}

/// A loop, which gets the next number.
#[cycle(statements)]
fn folded_loop(
    alloc: Global,
    turns: Turns,
    body: &Statement,
    kept: &mut Vec<u32>,
) -> Result<Statement, Memory>
    ensures made { IfOk result (λ s. statement_of s ≡ folded (length kept.old.items) (Loop turns.id turns.min turns.max (statement_of body.now))) }
    ensures kept { OnOk result (kept.new.items ≡ kept.old.items ++ kept_loops (Loop turns.id turns.min turns.max (statement_of body.now))) }
{
    let number = next_number(kept)?;
    kept.push(turns.id)?;
    let body = folded(alloc, body, kept)?;
    Ok(loop_of(alloc, number, turns.min, turns.max, body)?)
}
