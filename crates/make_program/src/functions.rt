// The functions of a program.
ghost use Rattle.std.specs.Prelude.{◌≡◌, ◌+◌, All, IfOk, map, slice_index_or};
ghost use Rattle.types_tree.specs.View.{function_of as defined_of, param_of};
ghost use Rattle.high_ir.specs.View.{function_of};
ghost use Rattle.plan_definition.specs.Layouts.{frame_scalars, is_frame, is_passed, passed_arrays};
ghost use Rattle.plan_definition.specs.Programs.{between, end_of, function_planned, functions_planned, named_params};
ghost use Rattle.make_statement.specs.Planned.{IsSmall, plan_said};

use super::frames::frame_needed;
use high_ir::Function;
use high_ir::statements::let_go;
use make_pieces::numbers::{offset, sum};
use make_statement::{Plan, body};
use std::alloc::Global;
use types_tree::declaration::Param;
use types_tree::external::Function as Defined;
use types_tree::variable::{Duration, Extent, Variable};
use wcc_base::Memory;

/// The objects from one number up to another.
fn between(variables: &[Variable], first: u32, behind: u32) -> &[Variable]
    ensures { result.now ≡ between variables.now first behind }
{
    let rest = &variables[(first as usize).min(variables.len())..];
    let count = behind.saturating_sub(first) as usize;
    &rest[..count.min(rest.len())]
}

fn is_in_frame(variable: Variable) -> bool
    ensures { result ≡ is_frame variable.duration variable.extent }
{
    matches!(
        (variable.duration, variable.extent),
        (Duration::Automatic, Extent::Scalar)
    )
}

fn is_passed(variable: Variable) -> bool
    ensures { result ≡ is_passed variable.extent }
{
    matches!(variable.extent, Extent::Parameter)
}

/// How many objects live in a frame.
fn frame_scalars(variables: &[Variable]) -> Result<u32, Memory>
    ensures { IfOk result (λ n. n ≡ frame_scalars variables.now) }
{
    offset(0, variables.iter().filter(|v| is_in_frame(**v)).count())
}

/// How many arrays are passed.
fn passed_arrays(variables: &[Variable]) -> Result<u32, Memory>
    ensures { IfOk result (λ n. n ≡ passed_arrays variables.now) }
{
    offset(0, variables.iter().filter(|v| is_passed(**v)).count())
}

/// How many parameters are objects: a lone unnamed `void` is none (C11 6.7.6.3, paragraph 10).
fn named_params(params: &[Param]) -> Result<u32, Memory>
    ensures { IfOk result (λ n. n ≡ named_params (map param_of params.now)) }
{
    let mut named = 0;
    for param in params {
        match param.name {
            None => {}
            Some(_) => named = sum(named, 1)?,
        }
    }
    Ok(named)
}

/// A function, whose objects end before this number.
fn function(
    plan: &Plan,
    variables: &[Variable],
    behind: u32,
    rank: u32,
    defined: &Defined,
) -> Result<Function, Memory>
    requires { All IsSmall plan.now.bounds.now }
    ensures { IfOk result (λ f. function_of f ≡ function_planned (plan_said plan.now) variables.now behind rank (defined_of defined.now)) }
{
    let first = defined.first.0;
    let parameters = between(
        variables,
        first,
        sum(first, named_params(&defined.params)?)?,
    );
    let values = frame_scalars(parameters)?;
    let arrays = passed_arrays(parameters)?;
    let own = frame_scalars(between(variables, first, behind))?;
    let body = body(plan, &defined.body, own)?;
    match frame_needed(&body) {
        Ok(needed) => Ok(Function {
            values,
            arrays,
            locals: own.max(needed).saturating_sub(values),
            rank,
            body,
        }),
        Err(memory) => {
            let_go(body);
            Err(memory)
        }
    }
}

/// Where the objects of a function before these end.
fn end_of(behind: &[Defined], all: u32) -> u32
    ensures { result ≡ end_of (map defined_of behind.now) all }
{
    match behind.first() {
        Some(next) => next.first.0,
        None => all,
    }
}

/// The rank of the function of this number.
fn rank_of(ranks: &[u32], number: usize) -> u32
    ensures { result ≡ slice_index_or ranks.now number 0 }
{
    ranks.get(number).copied().unwrap_or(0)
}

/// All functions, in the order of their numbers.
pub fn functions(
    alloc: Global,
    plan: &Plan,
    variables: &[Variable],
    ranks: &[u32],
    defined: &[Defined],
) -> Result<Vec<Function>, Memory>
    requires { All IsSmall plan.now.bounds.now }
    ensures { IfOk result (λ v. map function_of v.items ≡ functions_planned (plan_said plan.now) variables.now ranks.now 0 (map defined_of defined.now)) }
{
    let all = offset(0, variables.len())?;
    let mut functions = Vec::new(alloc);
    for i in 0..defined.len() {
        let behind = end_of(&defined[i + 1..], all);
        let function = function(plan, variables, behind, rank_of(ranks, i), &defined[i])?;
        functions.push(function)?;
    }
    Ok(functions)
}
