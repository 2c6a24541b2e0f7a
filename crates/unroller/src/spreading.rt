// What statements become where their innermost loops are unrolled.
ghost use Rattle.std.specs.Prelude.{◌≡◌, ◌+◌, ◌<◌, ◌≤◌, ◌^◌, All, IfOk, OnOk, map};
ghost use Rattle.wcc_base.specs.Budgets.{most_depth};
ghost use Rattle.high_ir.specs.Size.{depth, depth_all, nodes, nodes_all};
ghost use Rattle.high_ir.specs.Tree.{If, Loop};
ghost use Rattle.high_ir.specs.View.{expr_of, function_of, statement_of, statements_of};
ghost use Rattle.high_unrolled.specs.Programs.{function_spread, functions_spread};
ghost use Rattle.high_unrolled.specs.Unrolling.{spread, spread_all};
ghost use Rattle.unroller.specs.View.{continued, progress_of};

use super::factor::{Turns, is_taken};
use super::making::chosen;
use super::walk::Walk;
use high_again::statements::copied;
use high_ir::Function;
use high_ir::expression::Expr;
use high_ir::statement::Statement;
use high_ir::statements::{block, let_go, loop_of};
use wcc_base::Memory;

/// What a statement becomes that so many statements stand around.
#[cycle(spread)]
#[tactic(auto, using(crate::proofs::Progress::stays))]
pub fn spread(
    walk: &mut Walk,
    factor: u32,
    level: u32,
    statement: &Statement,
) -> Result<Statement, Memory>
    requires { (level + depth (statement_of statement.now) ≤ most_depth) × (nodes (statement_of statement.now) < 2 ^ 26) }
    ensures code { IfOk result (λ s. statement_of s ≡ (spread factor level (progress_of walk.old).place (statement_of statement.now)).code) }
    ensures progress { OnOk result (progress_of walk.new ≡ continued (progress_of walk.old) (spread factor level (progress_of walk.old).place (statement_of statement.now))) }
{
    match statement {
        Statement::Set { .. } => Ok(copied(walk.alloc, statement)?),
        Statement::Put { .. } => Ok(copied(walk.alloc, statement)?),
        Statement::Get { .. } => Ok(copied(walk.alloc, statement)?),
        Statement::Keep { .. } => Ok(copied(walk.alloc, statement)?),
        Statement::Mark { .. } => Ok(copied(walk.alloc, statement)?),
        Statement::Seq(parts) => {
            let made = spread_all(walk, factor, level + 1, parts)?;
            Ok(Statement::Seq(made))
        }
        Statement::If { test, first, other } => {
            Ok(spread_choice(walk, factor, level, test, first, other)?)
        }
        Statement::Loop { id, min, max, body } => {
            let by = Turns {
                id: *id,
                min: *min,
                max: *max,
            };
            Ok(spread_loop(walk, factor, level, by, body)?)
        }
        Statement::Block(body) => {
            let body = spread(walk, factor, level + 1, body)?;
            Ok(block(walk.alloc, body)?)
        }
        Statement::Leave { .. } => Ok(copied(walk.alloc, statement)?),
        Statement::Call { .. } => Ok(copied(walk.alloc, statement)?),
        Statement::Return { .. } => Ok(copied(walk.alloc, statement)?),
    }
}

#[cycle(spread)]
fn spread_all(
    walk: &mut Walk,
    factor: u32,
    level: u32,
    parts: &[Statement],
) -> Result<Vec<Statement>, Memory>
    requires { (level + depth_all (statements_of parts.now) ≤ most_depth) × (nodes_all (statements_of parts.now) < 2 ^ 26) }
    ensures code { IfOk result (λ v. statements_of v.items ≡ (spread_all factor level (progress_of walk.old).place (statements_of parts.now)).code) }
    ensures progress { OnOk result (progress_of walk.new ≡ continued (progress_of walk.old) (spread_all factor level (progress_of walk.old).place (statements_of parts.now))) }
{
    let mut made = Vec::new(walk.alloc);
    for part in parts {
        made.push(spread(walk, factor, level, part)?)?;
    }
    Ok(made)
}

#[cycle(spread)]
fn spread_choice(
    walk: &mut Walk,
    factor: u32,
    level: u32,
    test: &Expr,
    first: &Statement,
    other: &Statement,
) -> Result<Statement, Memory>
    requires { (level + depth (If (expr_of test.now) (statement_of first.now) (statement_of other.now)) ≤ most_depth) × (nodes (If (expr_of test.now) (statement_of first.now) (statement_of other.now)) < 2 ^ 26) }
    ensures code { IfOk result (λ s. statement_of s ≡ (spread factor level (progress_of walk.old).place (If (expr_of test.now) (statement_of first.now) (statement_of other.now))).code) }
    ensures progress { OnOk result (progress_of walk.new ≡ continued (progress_of walk.old) (spread factor level (progress_of walk.old).place (If (expr_of test.now) (statement_of first.now) (statement_of other.now)))) }
{
    let first = spread(walk, factor, level + 1, first)?;
    match spread(walk, factor, level + 1, other) {
        Ok(other) => Ok(chosen(walk.alloc, test, first, other)?),
        Err(memory) => {
            let_go(first);
            Err(memory)
        }
    }
}

/// A loop: by the factor, or with what its body becomes.
#[cycle(spread)]
fn spread_loop(
    walk: &mut Walk,
    factor: u32,
    level: u32,
    by: Turns,
    body: &Statement,
) -> Result<Statement, Memory>
    requires { (level + depth (Loop by.id by.min by.max (statement_of body.now)) ≤ most_depth) × (nodes (Loop by.id by.min by.max (statement_of body.now)) < 2 ^ 26) }
    ensures code { IfOk result (λ s. statement_of s ≡ (spread factor level (progress_of walk.old).place (Loop by.id by.min by.max (statement_of body.now))).code) }
    ensures progress { OnOk result (progress_of walk.new ≡ continued (progress_of walk.old) (spread factor level (progress_of walk.old).place (Loop by.id by.min by.max (statement_of body.now)))) }
{
    if is_taken(factor, walk.room, level, by.max, body) {
        return Ok(walk.take(factor, by, body)?);
    }
    let number = walk.meet(by.id, 1)?;
    let body = spread(walk, factor, level + 1, body)?;
    Ok(loop_of(walk.alloc, number, by.min, by.max, body)?)
}

fn function(walk: &mut Walk, factor: u32, function: &Function) -> Result<Function, Memory>
    requires { (depth (statement_of function.now.body) ≤ most_depth) × (nodes (statement_of function.now.body) < 2 ^ 26) }
    ensures code { IfOk result (λ f. function_of f ≡ (function_spread factor (progress_of walk.old).place (function_of function.now)).code) }
    ensures progress { OnOk result (progress_of walk.new ≡ continued (progress_of walk.old) (function_spread factor (progress_of walk.old).place (function_of function.now))) }
{
    let body = spread(walk, factor, 0, &function.body)?;
    Ok(Function {
        values: function.values,
        arrays: function.arrays,
        locals: function.locals,
        rank: function.rank,
        body,
    })
}

/// What functions become, one after another.
pub fn functions(
    walk: &mut Walk,
    factor: u32,
    functions: &[Function],
) -> Result<Vec<Function>, Memory>
    requires { All (λ f. (depth (statement_of f.body) ≤ most_depth) × (nodes (statement_of f.body) < 2 ^ 26)) functions.now }
    ensures code { IfOk result (λ v. map function_of v.items ≡ (functions_spread factor (progress_of walk.old).place (map function_of functions.now)).code) }
    ensures progress { OnOk result (progress_of walk.new ≡ continued (progress_of walk.old) (functions_spread factor (progress_of walk.old).place (map function_of functions.now))) }
{
    let mut made = Vec::new(walk.alloc);
    for each in functions {
        made.push(function(walk, factor, each)?)?;
    }
    Ok(made)
}
