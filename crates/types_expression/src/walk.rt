// The walk over an expression.
ghost use Rattle.std.specs.Prelude.{◌≡◌, ◌++◌, ◌∷◌, [], IfOk, OnOk};
ghost use Rattle.c_tree.specs.Tree.{Name, NoExpr};
ghost use Rattle.c_tree.specs.View.{expr_of as source_of, exprs_of as sources_of};
ghost use Rattle.types_rules.specs.Scope.{params_of};
ghost use Rattle.types_rules.specs.Types.{callee};
ghost use Rattle.types_expression.specs.Checked.{AreChecked, IsChecked, IsTyped};

use super::bindings::{is_callable, is_unknown, name_kind, names_array};
use super::breaks::{Breaks, both, either, first_of};
use super::checked::{Checked, CheckedArguments};
use super::finish::{
    finish_assign, finish_binary, finish_call, finish_cast, finish_conditional, finish_index,
    finish_paren, finish_postfix, finish_prefix, leaf,
};
use super::parts::{argument, argument_fits, is_step, named, param_at, takes_array};
use super::places::is_place;
use c_tree::expression::Expr as Source;
use std::alloc::{AllocError, Global};
use types_rules::scope::{Binding, ParamType};
use types_rules::{are_wrong, constant_kind, update_of};
use types_scope::Table;
use types_tree::expression::Expr;
use types_value::Kind;

/// The types of the parameters of the function that a name stands for.
fn callee_params<'a>(table: &'a Table, name: u32) -> &'a [ParamType]
    ensures { result.now ≡ params_of (callee name table.now) }
{
    match table.found(name) {
        Some(Binding::Function) => match table.routine(name) {
            Some(routine) => routine.params.as_slice(),
            None => &[],
        },
        Some(Binding::Object { .. }) => &[],
        None => &[],
    }
}

fn check_name(
    name: u32,
    at: u32,
    as_array: bool,
    table: &Table,
    alloc: Global,
) -> Result<Checked, AllocError>
    ensures { IfOk result (λ r. IsChecked r (Name name at) as_array table.now) }
{
    let binding = table.found(name);
    let misused = !as_array && names_array(binding);
    let breaks = Breaks::of_name(is_unknown(binding), misused, is_callable(binding));
    leaf(
        named(as_array, binding, at),
        name_kind(binding),
        breaks.fault(at),
        alloc,
    )
}

fn push(exprs: &mut Vec<Expr>, expr: Box<Expr>) -> Result<(), AllocError>
    ensures { OnOk result (exprs.new.items ≡ exprs.old.items ++ expr.value ∷ []) }
{
    exprs.push(Box::into_inner(expr))?;
    Ok(())
}

/// Checks an expression, which may be an array where it is an argument for an array parameter.
#[cycle(checker)]
fn check_expr(
    expr: &Source,
    as_array: bool,
    table: &Table,
    alloc: Global,
) -> Result<Checked, AllocError>
    ensures { IfOk result (λ r. IsChecked r (source_of expr.now) as_array table.now) }
{
    match expr {
        Source::Number { constant, at } => {
            let expr = Expr::Number {
                constant: *constant,
                at: *at,
            };
            leaf(expr, constant_kind(constant.scalar), None, alloc)
        }
        Source::Character { value, at } => {
            let expr = Expr::Character {
                value: *value,
                at: *at,
            };
            leaf(expr, Kind::Int, None, alloc)
        }
        Source::Name { name, at } => check_name(name.0, *at, as_array, table, alloc),
        Source::Paren { inner, at } => {
            let inner = check_expr(inner, false, table, alloc)?;
            finish_paren(inner, *at, alloc)
        }
        Source::Index { array, index, at } => {
            let binding = table.found(array.0);
            let index = check_expr(index, false, table, alloc)?;
            finish_index(binding, index, *at, alloc)
        }
        Source::Call {
            function,
            arguments,
            at,
        } => {
            let params = callee_params(table, function.0);
            let arguments = check_arguments(arguments, params, table, alloc)?;
            let call = finish_call(function.0, *at, arguments, table, alloc)?;
            Ok(call)
        }
        Source::Postfix {
            operator,
            operand,
            at,
        } => {
            let wrong = !is_place(operand, table);
            let inner = check_expr(operand, false, table, alloc)?;
            finish_postfix(*operator, wrong, inner, *at, alloc)
        }
        Source::Prefix {
            operator,
            operand,
            at,
        } => {
            let wrong = both(is_step(*operator), !is_place(operand, table));
            let inner = check_expr(operand, false, table, alloc)?;
            finish_prefix(*operator, wrong, inner, *at, alloc)
        }
        Source::Cast {
            specifiers,
            operand,
            at,
        } => {
            let wrong = are_wrong(false, table.in_block(), specifiers);
            let inner = check_expr(operand, false, table, alloc)?;
            finish_cast(specifiers, wrong, inner, *at, alloc)
        }
        Source::Binary {
            operator,
            left,
            right,
            at,
        } => {
            let first = check_expr(left, false, table, alloc)?;
            let second = check_expr(right, false, table, alloc)?;
            finish_binary(*operator, first, second, *at, alloc)
        }
        Source::Conditional {
            test,
            then,
            otherwise,
            at,
        } => {
            let test = check_expr(test, false, table, alloc)?;
            let first = check_expr(then, false, table, alloc)?;
            let second = check_expr(otherwise, false, table, alloc)?;
            finish_conditional(test, first, second, *at, alloc)
        }
        Source::Assign {
            operator,
            target,
            value,
            at,
        } => {
            let wrong = !is_place(target, table);
            let first = check_expr(target, false, table, alloc)?;
            let second = check_expr(value, false, table, alloc)?;
            finish_assign(update_of(*operator), wrong, first, second, *at, alloc)
        }
    }
}

/// Checks the arguments of a call of a function with these parameters.
#[cycle(checker)]
fn check_arguments(
    given: &[Source],
    params: &[ParamType],
    table: &Table,
    alloc: Global,
) -> Result<CheckedArguments, AllocError>
    ensures { IfOk result (λ r. AreChecked r (sources_of NoExpr given.now) params.now table.now) }
{
    let mut exprs = Vec::new(alloc);
    let mut void = false;
    let mut fit = true;
    let mut fault = None;
    for i in 0..given.len() {
        let source = &given[i];
        let param = param_at(params, i);
        let inner = check_expr(source, takes_array(param), table, alloc)?;
        void = either(void, inner.value.kind.is_void());
        fit = both(fit, argument_fits(source, param, table));
        fault = first_of(fault, inner.fault);
        let expr = argument(param, inner.value, alloc)?;
        push(&mut exprs, expr)?;
    }
    Ok(CheckedArguments {
        exprs,
        void,
        fit: both(given.len() == params.len(), fit),
        fault,
    })
}

/// The typed form of an expression, its type, and the first fault in it. It may be an array where it is an
/// argument for an array parameter.
pub fn check(
    expr: &Source,
    as_array: bool,
    table: &Table,
    alloc: Global,
) -> Result<Checked, AllocError>
    ensures { IfOk result (λ r. IsTyped r (source_of expr.now) as_array table.now) }
{
    let checked = check_expr(expr, as_array, table, alloc)?;
    Ok(checked)
}
