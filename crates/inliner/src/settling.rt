// Whether there is a call still that may be opened, and the functions once there is none.
ghost use Rattle.std.specs.Prelude.{◌≡◌, ◌<◌, ℕ, true, false, IfOk, slice_get};
ghost use Rattle.high_ir.specs.Programs.{program_of};
ghost use Rattle.high_ir.specs.View.{statement_of, statements_of};
ghost use Rattle.inliner.specs.Budgets.{fits_any};
ghost use Rattle.inliner.specs.Inlining.{swept};
ghost use Rattle.inliner.specs.Sites.{any_fits, any_fits_all, any_fits_in, is_open};
ghost use Rattle.inliner.specs.View.{IsSized, IsSizedMaking, functions_of, making_of, site_of};

use super::inlining::{Making, after_all, begun};
use super::opening::Call;
use super::order::by_rank;
use super::used::Used;
use super::walking::{Scope, fits};
use high_ir::statement::Statement;
use high_ir::{Function, High};
use high_renumber::numbers::sum;
use std::alloc::Global;
use wcc_base::Memory;

/// Whether a call may be opened that so many statements stand around.
fn may_open(scope: &Scope, used: Used, around: u32, call: &Call) -> Result<bool, Memory>
    requires { IsSized scope.now }
    ensures { IfOk result (λ b. b ≡ fits_any scope.now.limit used around (site_of call.now) (slice_get (functions_of scope.now.functions.now) call.now.function)) }
{
    match scope.functions.get(call.function as usize) {
        None => Ok(false),
        Some(function) => {
            let sizes = scope.sizes[call.function as usize];
            fits(scope.limit, used, around, call, function, sizes)
        }
    }
}

/// Whether a call in a statement may be opened.
#[cycle(statements)]
fn any_fits(scope: &Scope, used: Used, around: u32, statement: &Statement) -> Result<bool, Memory>
    requires { IsSized scope.now }
    ensures { IfOk result (λ b. b ≡ any_fits scope.now.limit (functions_of scope.now.functions.now) used around (statement_of statement.now)) }
{
    match statement {
        Statement::Set { .. } => Ok(false),
        Statement::Put { .. } => Ok(false),
        Statement::Get { .. } => Ok(false),
        Statement::Keep { .. } => Ok(false),
        Statement::Mark { .. } => Ok(false),
        Statement::Seq(parts) => any_fits_all(scope, used, sum(around, 1)?, parts),
        Statement::If { first, other, .. } => {
            let around = sum(around, 1)?;
            if any_fits(scope, used, around, first)? {
                return Ok(true);
            }
            any_fits(scope, used, around, other)
        }
        Statement::Loop { body, .. } => any_fits(scope, used, sum(around, 1)?, body),
        Statement::Block(body) => any_fits(scope, used, sum(around, 1)?, body),
        Statement::Leave { .. } => Ok(false),
        Statement::Call {
            function,
            values,
            arrays,
            into,
        } => {
            let call = Call {
                alloc: scope.alloc,
                function: *function,
                values,
                arrays,
                into: *into,
            };
            may_open(scope, used, around, &call)
        }
        Statement::Return { .. } => Ok(false),
    }
}

#[cycle(statements)]
fn any_fits_all(scope: &Scope, used: Used, around: u32, parts: &[Statement]) -> Result<bool, Memory>
    requires { IsSized scope.now }
    ensures { IfOk result (λ b. b ≡ any_fits_all scope.now.limit (functions_of scope.now.functions.now) used around (statements_of parts.now)) }
{
    for part in parts {
        if any_fits(scope, used, around, part)? {
            return Ok(true);
        }
    }
    Ok(false)
}

/// Whether a call in a function may be opened.
fn any_fits_in(scope: &Scope, used: Used, functions: &[Function]) -> Result<bool, Memory>
    requires { IsSized scope.now }
    ensures { IfOk result (λ b. b ≡ any_fits_in scope.now.limit (functions_of scope.now.functions.now) used (functions_of functions.now)) }
{
    for function in functions {
        if any_fits(scope, used, 0, &function.body)? {
            return Ok(true);
        }
    }
    Ok(false)
}

fn is_open(alloc: Global, limit: u32, making: &Making) -> Result<bool, Memory>
    requires { IsSizedMaking making.now }
    ensures { IfOk result (λ b. b ≡ is_open limit (making_of making.now)) }
{
    let scope = Scope {
        alloc,
        limit,
        functions: &making.functions,
        sizes: &making.sizes,
    };
    any_fits_in(&scope, making.used, &making.functions)
}

/// The functions of a program once no call is left that may be opened, and how often they were gone through.
#[derive(Drop)]
pub struct Settled {
    pub making: Making,
    pub sweeps: u32,
}

/// Goes through the functions, callees first, until no call is left that may be opened.
pub fn settle(alloc: Global, limit: u32, program: &High) -> Result<Settled, Memory>
    ensures made { IfOk result (λ s. making_of s.making ≡ swept limit (program_of program.now) s.sweeps) }
    ensures wanted { IfOk result (λ s. (n : ℕ) → n < s.sweeps → is_open limit (swept limit (program_of program.now) n) ≡ true) }
    ensures done { IfOk result (λ s. is_open limit (swept limit (program_of program.now) s.sweeps) ≡ false) }
{
    let order = by_rank(alloc, &program.functions)?;
    let mut making = begun(alloc, program)?;
    for sweeps in 0..u32::MAX {
        if !is_open(alloc, limit, &making)? {
            return Ok(Settled { making, sweeps });
        }
        after_all(alloc, limit, &order, &mut making)?;
    }
    drop(making);
    Err(Memory)
}
