// The walk over a body, which opens the calls that fit.
ghost use Rattle.std.specs.Prelude.{◌≡◌, ◌+◌, ◌*◌, ◌≤◌, IfOk, slice_get};
ghost use Rattle.wcc_base.specs.Budgets.{most_locals};
ghost use Rattle.high_ir.specs.View.{expr_of, function_of, statement_of, statements_of};
ghost use Rattle.inliner.specs.Budgets.{fits, used_behind, variables};
ghost use Rattle.inliner.specs.Measures.{size_into, sizes_of};
ghost use Rattle.inliner.specs.View.{IsSized, functions_of, site_of};
ghost use Rattle.inliner.specs.Walking.{at_call, chosen, opened, opened_all, opened_if, walked, walked_all};

use super::measuring::{Measure, values_measure};
use super::opening::{Call, kept, opening};
use super::sizes::Sizes;
use super::used::Used;
use high_again::expressions::copied_expr;
use high_again::statements::copied;
use high_ir::Function;
use high_ir::expression::Expr;
use high_ir::statement::Statement;
use high_ir::statements::{block, choice, let_go, loop_of};
use high_renumber::numbers::{offset, sum};
use std::alloc::Global;
use wcc_base::{MOST_DEPTH, MOST_LOCALS, MOST_OPERATIONS, Memory};

/// The functions as they are now, with how large they are, and how many nodes a function may have that is put in the place
/// of a call.
#[derive(Clone, Copy)]
pub struct Scope<'a> {
    pub alloc: Global,
    pub limit: u32,
    pub functions: &'a [Function],
    pub sizes: &'a [Sizes],
}

/// Whether a call fits that so many statements stand around.
#[tactic(auto, using(crate::proofs::Fitted::too_large, crate::proofs::Fitted::too_many, crate::proofs::Fitted::too_long, crate::proofs::Fitted::by_depth))]
pub fn fits(
    limit: u32,
    used: Used,
    around: u32,
    call: &Call,
    function: &Function,
    sizes: Sizes,
) -> Result<bool, Memory>
    requires { sizes ≡ sizes_of (function_of function.now) }
    ensures { IfOk result (λ b. b ≡ fits limit used around (site_of call.now) (function_of function.now)) }
{
    let body = sizes.placed(call.into);
    let values = values_measure(call.values)?;
    let arrays = offset(0, call.arrays.len())?;
    if sizes.whole.nodes >= limit {
        return Ok(false);
    }
    if u64::from(used.operations) + u64::from(body.operations) + 2
        > MOST_OPERATIONS as u64 + u64::from(arrays)
    {
        return Ok(false);
    }
    let variables = u64::from(function.values) + u64::from(function.locals);
    if used.bytes > MOST_LOCALS {
        return Ok(false);
    }
    if 4 * variables > MOST_LOCALS - used.bytes {
        return Ok(false);
    }
    Ok(u64::from(around) + u64::from(values.depth.max(body.depth)) + 2 <= MOST_DEPTH)
}

/// What is used behind an opening.
#[tactic(auto, using(crate::proofs::Fitted::behind_operations))]
fn used_behind(used: Used, call: &Call, function: &Function, body: Measure) -> Result<Used, Memory>
    requires body { body ≡ size_into (sizes_of (function_of function.now)) call.now.into }
    requires bytes { used.bytes + 4 * variables (function_of function.now) ≤ most_locals }
    ensures { IfOk result (λ u. u ≡ used_behind used (site_of call.now) (function_of function.now)) }
{
    let variables = u64::from(function.values) + u64::from(function.locals);
    let own = sum(function.values, function.locals)?;
    let before = sum(used.operations, sum(body.operations, 2)?)?;
    let arrays = offset(0, call.arrays.len())?;
    Ok(Used {
        next: sum(used.next, own)?,
        operations: before.saturating_sub(arrays),
        bytes: used.bytes + 4 * variables,
    })
}

/// A call of a function that is there.
fn opened_if(
    scope: &Scope,
    around: u32,
    call: &Call,
    function: &Function,
    sizes: Sizes,
    used: &mut Used,
) -> Result<Statement, Memory>
    requires { sizes ≡ sizes_of (function_of function.now) }
    ensures { IfOk result (λ s. walked (statement_of s) used.new ≡ opened_if (fits scope.now.limit used.old around (site_of call.now) (function_of function.now)) used.old (site_of call.now) (function_of function.now)) }
{
    let before = *used;
    if !fits(scope.limit, before, around, call, function, sizes)? {
        return kept(call);
    }
    let behind = used_behind(before, call, function, sizes.placed(call.into))?;
    let opened = opening(call, before.next, &function.body)?;
    *used = behind;
    Ok(opened)
}

/// A call, which is opened where it fits.
fn at_call(scope: &Scope, around: u32, call: &Call, used: &mut Used) -> Result<Statement, Memory>
    requires { IsSized scope.now }
    ensures { IfOk result (λ s. walked (statement_of s) used.new ≡ at_call scope.now.limit used.old around (site_of call.now) (slice_get (functions_of scope.now.functions.now) call.now.function)) }
{
    match scope.functions.get(call.function as usize) {
        None => kept(call),
        Some(function) => {
            let sizes = scope.sizes[call.function as usize];
            opened_if(scope, around, call, function, sizes, used)
        }
    }
}

/// A statement that so many others stand around, with the calls opened that fit.
#[cycle(statements)]
pub fn opened(
    scope: &Scope,
    around: u32,
    statement: &Statement,
    used: &mut Used,
) -> Result<Statement, Memory>
    requires { IsSized scope.now }
    ensures { IfOk result (λ s. walked (statement_of s) used.new ≡ opened scope.now.limit (functions_of scope.now.functions.now) around (statement_of statement.now) used.old) }
{
    let alloc = scope.alloc;
    match statement {
        Statement::Set { .. } => copied(alloc, statement),
        Statement::Put { .. } => copied(alloc, statement),
        Statement::Get { .. } => copied(alloc, statement),
        Statement::Keep { .. } => copied(alloc, statement),
        Statement::Mark { .. } => copied(alloc, statement),
        Statement::Seq(parts) => {
            let made = opened_all(scope, sum(around, 1)?, parts, used)?;
            Ok(Statement::Seq(made))
        }
        Statement::If { test, first, other } => {
            let first = opened(scope, sum(around, 1)?, first, used)?;
            with_other(scope, sum(around, 1)?, test, first, other, used)
        }
        Statement::Loop { id, min, max, body } => {
            let body = opened(scope, sum(around, 1)?, body, used)?;
            loop_of(alloc, *id, *min, *max, body)
        }
        Statement::Block(body) => {
            let body = opened(scope, sum(around, 1)?, body, used)?;
            block(alloc, body)
        }
        Statement::Leave { .. } => copied(alloc, statement),
        Statement::Call {
            function,
            values,
            arrays,
            into,
        } => {
            let call = Call {
                alloc,
                function: *function,
                values,
                arrays,
                into: *into,
            };
            at_call(scope, around, &call, used)
        }
        Statement::Return { .. } => copied(alloc, statement),
    }
}

/// A choice whose first way is walked.
#[cycle(statements)]
fn with_other(
    scope: &Scope,
    around: u32,
    test: &Expr,
    first: Statement,
    other: &Statement,
    used: &mut Used,
) -> Result<Statement, Memory>
    requires { IsSized scope.now }
    ensures { IfOk result (λ s. walked (statement_of s) used.new ≡ chosen (expr_of test.now) (walked (statement_of first) used.old) (opened scope.now.limit (functions_of scope.now.functions.now) around (statement_of other.now))) }
{
    match opened(scope, around, other, used) {
        Ok(other) => match copied_expr(scope.alloc, test) {
            Ok(test) => choice(scope.alloc, test, first, other),
            Err(memory) => {
                let_go(first);
                let_go(other);
                Err(memory)
            }
        },
        Err(memory) => {
            let_go(first);
            Err(memory)
        }
    }
}

#[cycle(statements)]
fn opened_all(
    scope: &Scope,
    around: u32,
    parts: &[Statement],
    used: &mut Used,
) -> Result<Vec<Statement>, Memory>
    requires { IsSized scope.now }
    ensures { IfOk result (λ v. walked_all (statements_of v.items) used.new ≡ opened_all scope.now.limit (functions_of scope.now.functions.now) around (statements_of parts.now) used.old) }
{
    let mut made = Vec::new(scope.alloc);
    for part in parts {
        made.push(opened(scope, around, part, used)?)?;
    }
    Ok(made)
}
