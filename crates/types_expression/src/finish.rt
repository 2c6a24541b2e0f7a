// Expressions, once their parts are walked.
ghost use Rattle.std.specs.Prelude.{◌≡◌, ◌&&◌, ◌||◌, IfOk};
ghost use Rattle.types_rules.specs.ExpressionRules.{differ, uses_both};
ghost use Rattle.types_rules.specs.Operations.{sign_of};
ghost use Rattle.types_rules.specs.Scope.{or_else, result_of};
ghost use Rattle.types_rules.specs.Sights.{fault_at};
ghost use Rattle.types_rules.specs.Specifiers.{kind_spelled};
ghost use Rattle.types_rules.specs.Types.{binary_kind, callee, cast_kind, conditional_kind, element_kind, or_int, prefix_kind};
ghost use Rattle.types_rules.specs.Typing.{callee_of, converted, object_number, place_in, typed_assign, typed_binary, typed_prefix};
ghost use Rattle.types_tree.specs.Tree.{Call, Cast, Conditional, Element, Paren, Read, Step};
ghost use Rattle.types_tree.specs.View.{expr_of, exprs_of};
ghost use Rattle.types_tree.specs.declared.expression.Fix.TheVariants.{Postfix};
ghost use Rattle.types_value.specs.Kinds.{is_void};
ghost use Rattle.types_expression.specs.Breaks.{broken_rule, call_breaks, call_kind, cast_breaks, index_breaks, place_breaks, void_breaks};

use super::bindings::{element_kind, is_callable, is_unknown, names_no_array, object_of};
use super::breaks::{Breaks, both, differ, either, first_of};
use super::checked::{Checked, CheckedArguments};
use super::parts::{
    assign, binary_kind, callee_of, cast, cast_kind, choose, is_undefined, join, or_int, prefix,
    prefix_kind, step, uses_both,
};
use c_tree::expression::{BinaryOperator, PostfixOperator, PrefixOperator, Specifier};
use std::alloc::{AllocError, Global};
use types_rules::scope::Binding;
use types_rules::{Fault, kind_spelled, sign_of};
use types_scope::Table;
use types_tree::expression::{Expr, Fix, Place};
use types_value::{Kind, Operator};

pub fn leaf(
    expr: Expr,
    kind: Kind,
    fault: Option<Fault>,
    alloc: Global,
) -> Result<Checked, AllocError>
    ensures expr { IfOk result (λ r. r.value.expr.value ≡ expr) }
    ensures kind { IfOk result (λ r. r.value.kind ≡ kind) }
    ensures fault { IfOk result (λ r. r.fault ≡ fault) }
{
    let expr = expr.boxed(alloc)?;
    Ok(Checked::new(expr, kind, fault))
}

/// An expression in brackets.
pub fn finish_paren(inner: Checked, at: u32, alloc: Global) -> Result<Checked, AllocError>
    ensures expr { IfOk result (λ r. expr_of r.value.expr.value ≡ Paren (expr_of inner.value.expr.value) at) }
    ensures kind { IfOk result (λ r. r.value.kind ≡ inner.value.kind) }
    ensures fault { IfOk result (λ r. r.fault ≡ inner.fault) }
{
    let expr = Expr::Paren {
        inner: inner.value.expr,
        at,
    };
    leaf(expr, inner.value.kind, inner.fault, alloc)
}

/// An element of what a name stands for.
pub fn finish_index(
    binding: Option<Binding>,
    index: Checked,
    at: u32,
    alloc: Global,
) -> Result<Checked, AllocError>
    ensures expr { IfOk result (λ r. expr_of r.value.expr.value ≡ Read (Element (object_number binding) (expr_of index.value.expr.value) at)) }
    ensures kind { IfOk result (λ r. r.value.kind ≡ element_kind binding) }
    ensures fault { IfOk result (λ r. r.fault ≡ or_else (fault_at (broken_rule (index_breaks binding index.value.kind)) at) index.fault) }
{
    let void = index.value.kind.is_void();
    let breaks = Breaks::of_index(is_unknown(binding), names_no_array(binding), void);
    let fault = first_of(breaks.fault(at), index.fault);
    let expr = Expr::Read(Place::Element {
        array: object_of(binding),
        index: index.value.expr,
        at,
    });
    leaf(expr, element_kind(binding), fault, alloc)
}

/// The type of the result of the function that a name stands for.
fn callee_result(table: &Table, name: u32) -> Kind
    ensures { result ≡ result_of (callee name table.now) }
{
    match table.found(name) {
        Some(Binding::Function) => match table.routine(name) {
            Some(routine) => routine.result,
            None => Kind::Int,
        },
        Some(Binding::Object { .. }) => Kind::Int,
        None => Kind::Int,
    }
}

/// A call, once its arguments are walked.
pub fn finish_call(
    name: u32,
    at: u32,
    arguments: CheckedArguments,
    table: &Table,
    alloc: Global,
) -> Result<Checked, AllocError>
    ensures expr { IfOk result (λ r. expr_of r.value.expr.value ≡ Call (callee_of name table.now.outline) (exprs_of arguments.exprs.items) at) }
    ensures kind { IfOk result (λ r. r.value.kind ≡ call_kind (call_breaks name arguments.fit arguments.void table.now) (result_of (callee name table.now))) }
    ensures fault { IfOk result (λ r. r.fault ≡ or_else (fault_at (broken_rule (call_breaks name arguments.fit arguments.void table.now)) at) arguments.fault) }
{
    let binding = table.found(name);
    let rightly = both(is_callable(binding), arguments.fit);
    let undefined = is_undefined(binding, name, table.known());
    let breaks = Breaks::of_call(is_unknown(binding), !rightly, arguments.void, undefined);
    let kind = breaks.kind(callee_result(table, name));
    let fault = first_of(breaks.fault(at), arguments.fault);
    let callee = callee_of(name, table.known())?;
    let expr = Expr::call(callee, arguments.exprs, at).boxed(alloc)?;
    Ok(Checked::new(expr, kind, fault))
}

/// A step behind a place, or behind what is wrong in place of one.
pub fn finish_postfix(
    operator: PostfixOperator,
    wrong: bool,
    inner: Checked,
    at: u32,
    alloc: Global,
) -> Result<Checked, AllocError>
    ensures expr { IfOk result (λ r. expr_of r.value.expr.value ≡ Step Postfix operator inner.value.kind (place_in (expr_of inner.value.expr.value)) at) }
    ensures kind { IfOk result (λ r. r.value.kind ≡ or_int inner.value.kind) }
    ensures fault { IfOk result (λ r. r.fault ≡ or_else (fault_at (broken_rule (place_breaks (is_void inner.value.kind) wrong)) at) inner.fault) }
{
    let breaks = Breaks::of_place(inner.value.kind.is_void(), wrong);
    let kind = or_int(inner.value.kind);
    let fault = first_of(breaks.fault(at), inner.fault);
    let expr = step(Fix::Postfix, operator, inner.value, at, alloc)?;
    Ok(Checked::new(expr, kind, fault))
}

/// An operator before an operand, or before what is wrong in place of a place.
pub fn finish_prefix(
    operator: PrefixOperator,
    wrong: bool,
    inner: Checked,
    at: u32,
    alloc: Global,
) -> Result<Checked, AllocError>
    ensures expr { IfOk result (λ r. expr_of r.value.expr.value ≡ typed_prefix (sign_of operator) operator inner.value.kind (expr_of inner.value.expr.value) at) }
    ensures kind { IfOk result (λ r. r.value.kind ≡ prefix_kind (sign_of operator) inner.value.kind) }
    ensures fault { IfOk result (λ r. r.fault ≡ or_else (fault_at (broken_rule (place_breaks (is_void inner.value.kind) wrong)) at) inner.fault) }
{
    let breaks = Breaks::of_place(inner.value.kind.is_void(), wrong);
    let kind = prefix_kind(sign_of(operator), inner.value.kind);
    let fault = first_of(breaks.fault(at), inner.fault);
    let expr = prefix(operator, inner.value, at, alloc)?;
    Ok(Checked::new(expr, kind, fault))
}

/// A cast, of which the words may be wrong.
pub fn finish_cast(
    specifiers: &[Specifier],
    wrong: bool,
    inner: Checked,
    at: u32,
    alloc: Global,
) -> Result<Checked, AllocError>
    ensures expr { IfOk result (λ r. expr_of r.value.expr.value ≡ Cast specifiers.now (kind_spelled specifiers.now) (expr_of inner.value.expr.value) at) }
    ensures kind { IfOk result (λ r. r.value.kind ≡ cast_kind wrong (kind_spelled specifiers.now)) }
    ensures fault { IfOk result (λ r. r.fault ≡ or_else (fault_at (broken_rule (cast_breaks wrong (kind_spelled specifiers.now) inner.value.kind)) at) inner.fault) }
{
    let to = kind_spelled(specifiers);
    let void = both(!to.is_void(), inner.value.kind.is_void());
    let breaks = Breaks::of_cast(wrong, void);
    let fault = first_of(breaks.fault(at), inner.fault);
    let expr = cast(specifiers, inner.value.expr, at, alloc)?;
    Ok(Checked::new(expr, cast_kind(wrong, to), fault))
}

/// An operator between two operands.
pub fn finish_binary(
    operator: BinaryOperator,
    left: Checked,
    right: Checked,
    at: u32,
    alloc: Global,
) -> Result<Checked, AllocError>
    ensures expr { IfOk result (λ r. expr_of r.value.expr.value ≡ typed_binary operator left.value.kind right.value.kind (expr_of left.value.expr.value) (expr_of right.value.expr.value) at) }
    ensures kind { IfOk result (λ r. r.value.kind ≡ binary_kind operator left.value.kind right.value.kind) }
    ensures fault { IfOk result (λ r. r.fault ≡ or_else (fault_at (broken_rule (void_breaks (uses_both operator && (is_void left.value.kind || is_void right.value.kind)))) at) (or_else left.fault right.fault)) }
{
    let void = either(left.value.kind.is_void(), right.value.kind.is_void());
    let breaks = Breaks::of_void(both(uses_both(operator), void));
    let kind = binary_kind(operator, left.value.kind, right.value.kind);
    let fault = first_of(breaks.fault(at), first_of(left.fault, right.fault));
    let expr = join(operator, left.value, right.value, at, alloc)?;
    Ok(Checked::new(expr, kind, fault))
}

/// A choice by a test.
pub fn finish_conditional(
    test: Checked,
    first: Checked,
    second: Checked,
    at: u32,
    alloc: Global,
) -> Result<Checked, AllocError>
    ensures expr { IfOk result (λ r. expr_of r.value.expr.value ≡ Conditional (expr_of test.value.expr.value)
        (converted first.value.kind (conditional_kind test.value.kind first.value.kind second.value.kind) (expr_of first.value.expr.value))
        (converted second.value.kind (conditional_kind test.value.kind first.value.kind second.value.kind) (expr_of second.value.expr.value)) at) }
    ensures kind { IfOk result (λ r. r.value.kind ≡ conditional_kind test.value.kind first.value.kind second.value.kind) }
    ensures fault { IfOk result (λ r. r.fault ≡ or_else (fault_at (broken_rule (void_breaks (is_void test.value.kind || differ (is_void first.value.kind) (is_void second.value.kind)))) at) (or_else test.fault (or_else first.fault second.fault))) }
{
    let one = differ(first.value.kind.is_void(), second.value.kind.is_void());
    let breaks = Breaks::of_void(either(test.value.kind.is_void(), one));
    let parts = first_of(test.fault, first_of(first.fault, second.fault));
    let fault = first_of(breaks.fault(at), parts);
    let value = choose(test.value, first.value, second.value, at, alloc)?;
    Ok(Checked { value, fault })
}

/// An assignment to a place, or to what is wrong in place of one.
pub fn finish_assign(
    operator: Option<Operator>,
    wrong: bool,
    target: Checked,
    value: Checked,
    at: u32,
    alloc: Global,
) -> Result<Checked, AllocError>
    ensures expr { IfOk result (λ r. expr_of r.value.expr.value ≡ typed_assign operator target.value.kind value.value.kind (place_in (expr_of target.value.expr.value)) (expr_of value.value.expr.value) at) }
    ensures kind { IfOk result (λ r. r.value.kind ≡ or_int target.value.kind) }
    ensures fault { IfOk result (λ r. r.fault ≡ or_else (fault_at (broken_rule (place_breaks (is_void target.value.kind || is_void value.value.kind) wrong)) at) (or_else target.fault value.fault)) }
{
    let void = either(target.value.kind.is_void(), value.value.kind.is_void());
    let breaks = Breaks::of_place(void, wrong);
    let kind = or_int(target.value.kind);
    let fault = first_of(breaks.fault(at), first_of(target.fault, value.fault));
    let expr = assign(operator, target.value, value.value, at, alloc)?;
    Ok(Checked::new(expr, kind, fault))
}
