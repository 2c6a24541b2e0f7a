ghost use Rattle.std.specs.Prelude.{◌≡◌, IfOk, slice_get};
ghost use Rattle.c_tree.specs.View.{expr_of as source_of};
ghost use Rattle.types_rules.specs.ExpressionRules.{is_step, uses_both};
ghost use Rattle.types_rules.specs.Operations.{sign_of};
ghost use Rattle.types_rules.specs.Specifiers.{kind_spelled};
ghost use Rattle.types_rules.specs.Types.{argument_fits, binary_kind, cast_kind, conditional_kind, is_array_argument, is_undefined, operated_kind, or_int, prefix_kind, takes_array};
ghost use Rattle.types_tree.specs.Tree.{Cast, Conditional, Step};
ghost use Rattle.types_rules.specs.Typing.{argument_of, callee_of, converted, operated, place_in, step_of, typed_assign, typed_binary, typed_name, typed_prefix};
ghost use Rattle.types_tree.specs.View.{expr_of};

use super::bindings::{is_array_for, names_array, object_of};
use super::checked::Value;
use super::places::place_in;
use c_tree::expression::{
    BinaryOperator, Expr as Source, PostfixOperator, PrefixOperator, Specifier,
};
use std::alloc::{AllocError, Global};
use types_rules::scope::{Binding, ParamType};
use types_rules::{
    kind_spelled, left_kind, operator_of, right_kind, sign_kind, sign_of, value_kind,
};
use types_scope::{Known, Table};
use types_tree::expression::{Callee, Expr, Fix, FunctionId, Place};
use types_value::{Kind, Operator, Sign};

/// A conversion, where the types differ.
pub fn convert(
    from: Kind,
    to: Kind,
    expr: Box<Expr>,
    alloc: Global,
) -> Result<Box<Expr>, AllocError>
    ensures { IfOk result (λ e. expr_of e.value ≡ converted from to (expr_of expr.value)) }
{
    if from.is(to) {
        return Ok(expr);
    }
    Expr::Convert { to, operand: expr }.boxed(alloc)
}

pub fn or_int(kind: Kind) -> Kind
    ensures { result ≡ or_int kind }
{
    if kind.is_void() { Kind::Int } else { kind }
}

fn operated_kind(operator: Option<Operator>, left: Kind, right: Kind) -> Kind
    ensures { result ≡ operated_kind operator left right }
{
    match operator {
        None => Kind::Int,
        Some(operator) => value_kind(operator, left, right),
    }
}

pub fn binary_kind(operator: BinaryOperator, left: Kind, right: Kind) -> Kind
    ensures { result ≡ binary_kind operator left right }
{
    match operator {
        BinaryOperator::Comma => right,
        other => operated_kind(operator_of(other), left, right),
    }
}

fn conditional_kind(test: Kind, first: Kind, second: Kind) -> Kind
    ensures { result ≡ conditional_kind test first second }
{
    if test.is_void() {
        return Kind::Int;
    }
    if first.is_void() && second.is_void() {
        return Kind::Void;
    }
    first.common(second)
}

pub fn prefix_kind(sign: Option<Sign>, operand: Kind) -> Kind
    ensures { result ≡ prefix_kind sign operand }
{
    match sign {
        None => or_int(operand),
        Some(sign) => sign_kind(sign, operand),
    }
}

pub fn cast_kind(wrong: bool, kind: Kind) -> Kind
    ensures { result ≡ cast_kind wrong kind }
{
    if wrong { Kind::Int } else { kind }
}

pub fn uses_both(operator: BinaryOperator) -> bool
    ensures { result ≡ uses_both operator }
{
    !matches!(operator, BinaryOperator::Comma)
}

pub fn is_step(operator: PrefixOperator) -> bool
    ensures { result ≡ is_step operator }
{
    matches!(
        operator,
        PrefixOperator::Increment | PrefixOperator::Decrement
    )
}

fn step_of(operator: PrefixOperator) -> PostfixOperator
    ensures { result ≡ step_of operator }
{
    match operator {
        PrefixOperator::Decrement => PostfixOperator::Decrement,
        _ => PostfixOperator::Increment,
    }
}

/// A name as a value, or as an argument for an array parameter.
pub fn named(as_array: bool, binding: Option<Binding>, at: u32) -> Expr
    ensures { expr_of result ≡ typed_name as_array binding at }
{
    let object = object_of(binding);
    if as_array && names_array(binding) {
        return Expr::Array { object, at };
    }
    Expr::Read(Place::Scalar { object, at })
}

/// An operator on both operands, or on one after the other.
pub fn join(
    operator: BinaryOperator,
    left: Value,
    right: Value,
    at: u32,
    alloc: Global,
) -> Result<Box<Expr>, AllocError>
    ensures { IfOk result (λ e. expr_of e.value ≡ typed_binary operator left.kind right.kind (expr_of left.expr.value) (expr_of right.expr.value) at) }
{
    match operator {
        BinaryOperator::And => Expr::And {
            left: left.expr,
            right: right.expr,
            at,
        }
        .boxed(alloc),
        BinaryOperator::Or => Expr::Or {
            left: left.expr,
            right: right.expr,
            at,
        }
        .boxed(alloc),
        other => operate(operator_of(other), left, right, at, alloc),
    }
}

fn operate(
    operator: Option<Operator>,
    left: Value,
    right: Value,
    at: u32,
    alloc: Global,
) -> Result<Box<Expr>, AllocError>
    ensures { IfOk result (λ e. expr_of e.value ≡ operated operator left.kind right.kind (expr_of left.expr.value) (expr_of right.expr.value) at) }
{
    match operator {
        None => Expr::Comma {
            left: left.expr,
            right: right.expr,
            at,
        }
        .boxed(alloc),
        Some(operator) => {
            let kind = left_kind(operator, left.kind, right.kind);
            let other = right_kind(operator, left.kind, right.kind);
            let first = convert(left.kind, kind, left.expr, alloc)?;
            let second = convert(right.kind, other, right.expr, alloc)?;
            Expr::Operate {
                operator,
                kind,
                left: first,
                right: second,
                at,
            }
            .boxed(alloc)
        }
    }
}

pub fn step(
    fix: Fix,
    operator: PostfixOperator,
    operand: Value,
    at: u32,
    alloc: Global,
) -> Result<Box<Expr>, AllocError>
    ensures { IfOk result (λ e. expr_of e.value ≡ Step fix operator operand.kind (place_in (expr_of operand.expr.value)) at) }
{
    let target = place_in(operand.expr, alloc)?;
    Expr::Step {
        fix,
        operator,
        kind: operand.kind,
        target,
        at,
    }
    .boxed(alloc)
}

pub fn prefix(
    operator: PrefixOperator,
    operand: Value,
    at: u32,
    alloc: Global,
) -> Result<Box<Expr>, AllocError>
    ensures { IfOk result (λ e. expr_of e.value ≡ typed_prefix (sign_of operator) operator operand.kind (expr_of operand.expr.value) at) }
{
    match sign_of(operator) {
        None => step(Fix::Prefix, step_of(operator), operand, at, alloc),
        Some(sign) => {
            let kind = operand.kind.promoted();
            let operand = convert(operand.kind, kind, operand.expr, alloc)?;
            Expr::Sign {
                operator: sign,
                kind,
                operand,
                at,
            }
            .boxed(alloc)
        }
    }
}

/// An assignment, of which the value is converted to the type of what is assigned.
pub fn assign(
    operator: Option<Operator>,
    target: Value,
    value: Value,
    at: u32,
    alloc: Global,
) -> Result<Box<Expr>, AllocError>
    ensures { IfOk result (λ e. expr_of e.value ≡ typed_assign operator target.kind value.kind (place_in (expr_of target.expr.value)) (expr_of value.expr.value) at) }
{
    let to = target.kind;
    let place = place_in(target.expr, alloc)?;
    match operator {
        None => {
            let value = convert(value.kind, to, value.expr, alloc)?;
            Expr::Assign {
                target: place,
                value,
                at,
            }
            .boxed(alloc)
        }
        Some(operator) => {
            let kind = left_kind(operator, to, value.kind);
            let other = right_kind(operator, to, value.kind);
            let value = convert(value.kind, other, value.expr, alloc)?;
            Expr::Update {
                operator,
                kind,
                to,
                target: place,
                value,
                at,
            }
            .boxed(alloc)
        }
    }
}

pub fn cast(
    specifiers: &[Specifier],
    operand: Box<Expr>,
    at: u32,
    alloc: Global,
) -> Result<Box<Expr>, AllocError>
    ensures { IfOk result (λ e. expr_of e.value ≡ Cast specifiers.now (kind_spelled specifiers.now) (expr_of operand.value) at) }
{
    let to = kind_spelled(specifiers);
    let words = specifiers.to_vec(alloc)?;
    Expr::Cast {
        specifiers: words,
        to,
        operand,
        at,
    }
    .boxed(alloc)
}

/// Three expressions of which one chooses between the others, which are converted to one type.
pub fn choose(
    test: Value,
    first: Value,
    second: Value,
    at: u32,
    alloc: Global,
) -> Result<Value, AllocError>
    ensures kind { IfOk result (λ v. v.kind ≡ conditional_kind test.kind first.kind second.kind) }
    ensures expr { IfOk result (λ v. expr_of v.expr.value ≡ Conditional (expr_of test.expr.value)
        (converted first.kind (conditional_kind test.kind first.kind second.kind) (expr_of first.expr.value))
        (converted second.kind (conditional_kind test.kind first.kind second.kind) (expr_of second.expr.value)) at) }
{
    let kind = conditional_kind(test.kind, first.kind, second.kind);
    let then = convert(first.kind, kind, first.expr, alloc)?;
    let otherwise = convert(second.kind, kind, second.expr, alloc)?;
    let expr = Expr::Conditional {
        test: test.expr,
        then,
        otherwise,
        at,
    }
    .boxed(alloc)?;
    Ok(Value { expr, kind })
}

/// Where a call of a name goes.
pub fn callee_of(name: u32, known: &Known) -> Result<Callee, AllocError>
    ensures { IfOk result (λ callee. callee ≡ callee_of name known.now) }
{
    if name == known.getchar() {
        return Ok(Callee::Getchar);
    }
    if name == known.putchar() {
        return Ok(Callee::Putchar);
    }
    let number = known.number(name)?;
    Ok(Callee::Function(FunctionId(number)))
}

pub fn is_undefined(binding: Option<Binding>, name: u32, known: &Known) -> bool
    ensures { result ≡ is_undefined binding name known.now }
{
    match binding {
        Some(Binding::Function) => !(name == known.getchar()
            || name == known.putchar()
            || known.defines(name)),
        Some(Binding::Object { .. }) => false,
        None => false,
    }
}

pub fn takes_array(param: Option<ParamType>) -> bool
    ensures { result ≡ takes_array param }
{
    match param {
        None => false,
        Some(param) => param.is_array,
    }
}

pub fn param_at(params: &[ParamType], number: usize) -> Option<ParamType>
    ensures { result ≡ slice_get params.now number }
{
    params.get(number).copied()
}

fn is_array_argument(e: &Source, param: ParamType, table: &Table) -> bool
    ensures { result ≡ is_array_argument (source_of e.now) param table.now }
{
    match e {
        Source::Name { name, .. } => is_array_for(param, table.found(name.0)),
        _ => false,
    }
}

pub fn argument_fits(e: &Source, param: Option<ParamType>, table: &Table) -> bool
    ensures { result ≡ argument_fits (source_of e.now) param table.now }
{
    match param {
        None => true,
        Some(param) => {
            if param.is_array {
                return is_array_argument(e, param, table);
            }
            true
        }
    }
}

/// An argument, converted to the type of its parameter.
pub fn argument(
    param: Option<ParamType>,
    value: Value,
    alloc: Global,
) -> Result<Box<Expr>, AllocError>
    ensures { IfOk result (λ e. expr_of e.value ≡ argument_of param value.kind (expr_of value.expr.value)) }
{
    match param {
        None => Ok(value.expr),
        Some(param) => {
            if param.is_array {
                return Ok(value.expr);
            }
            convert(value.kind, param.kind, value.expr, alloc)
        }
    }
}
