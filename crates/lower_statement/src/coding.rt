// The instructions of a statement, and the registers that they share.
ghost use Rattle.std.specs.Prelude.{◌≡◌, ◌++◌, ℕ, IfOk, Some, map};
ghost use Rattle.high_ir.specs.Tree.{Element};
ghost use Rattle.high_ir.specs.View.{expr_of};
ghost use Rattle.lower_expression.specs.Behind.{after};
ghost use Rattle.lower_expression.specs.View.{code_of, scope_of, shares_of as shares_said, tested_in, valued_of};
ghost use Rattle.low_ir.specs.View.{base_of as base_at};
ghost use Rattle.lower_coder.specs.View.{coded_of};
ghost use Rattle.lower_definition.specs.Objects.{scale_of};
ghost use Rattle.lower_definition.specs.Calls.{place_in};
ghost use Rattle.lower_definition.specs.Statements.{call_code, get_code, into_there, keep_code, kept_value, put_code, set_code, shares_of, store_at, test_code};
ghost use Rattle.lower_definition.specs.Values.{index_of, offset_of, operand, scaled_in};
ghost use Rattle.lower_statement.specs.Sharing.{returned_value, shared_first};

use high_ir::expression::{Expr, UnaryOperator};
use high_ir::object::{Array, Base as HighBase, Kind};
use low_ir::{Base, Instr, Operand};
use lower_coder::Coder;
use lower_coder::numbers::{offset, sum};
use lower_coder::objects::kind_of;
use lower_expression::{
    Comparison, Scope, Share, base_of, index_of, offset_of, operand, share_code, shares_at,
    shares_in, shares_in_all, tested, value_into, values_passed,
};
use wcc_base::Memory;

/// The shares of an expression, whose registers are those from `first` on.
fn shares_of(scope: &Scope, expr: &Expr, first: u32) -> Result<Vec<Share>, Memory>
    ensures { IfOk result (λ s. shares_said s.items ≡ shares_of (scope_of scope.now) (scaled_in (scope_of scope.now) (expr_of expr.now)) first) }
{
    let mut shares = Vec::new(scope.alloc);
    shares_in(scope, expr, first, &mut shares)?;
    Ok(shares)
}

/// The instructions of shared registers.
fn begun(scope: &Scope, shares: &[Share], first: u32) -> Result<Coder, Memory>
    ensures { IfOk result (λ c. coded_of c ≡ shared_first (shares_said shares.now) first) }
{
    let mut coder = Coder::new(scope.alloc, offset(first, shares.len())?);
    share_code(shares, &mut coder)?;
    Ok(coder)
}

/// A value into a variable, if that is there.
pub fn set_code(scope: &Scope, x: u32, value: &Expr, free: u32) -> Result<Coder, Memory>
    ensures { IfOk result (λ c. coded_of c ≡ set_code (scope_of scope.now) x (expr_of value.now) free) }
{
    if x < scope.variables {
        let shares = shares_of(scope, value, free)?;
        let mut coder = begun(scope, &shares, free)?;
        value_into(scope, &shares, value, x, &mut coder)?;
        return Ok(coder);
    }
    Ok(Coder::new(scope.alloc, free))
}

/// A byte of the output.
pub fn put_code(scope: &Scope, value: &Expr, free: u32) -> Result<Coder, Memory>
    ensures { IfOk result (λ c. coded_of c ≡ put_code (scope_of scope.now) (expr_of value.now) free) }
{
    let (mut coder, value) = value_code(scope, value, free)?;
    coder.push(Instr::Put { value })?;
    Ok(coder)
}

/// A value as an operand.
pub fn value_code(scope: &Scope, value: &Expr, free: u32) -> Result<(Coder, Operand), Memory>
    ensures { IfOk result (λ v. valued_of v.0 v.1 ≡ returned_value (scope_of scope.now) (expr_of value.now) free) }
{
    let shares = shares_of(scope, value, free)?;
    let mut coder = begun(scope, &shares, free)?;
    let value = operand(scope, &shares, value, &mut coder)?;
    Ok((coder, value))
}

/// A byte of the input into a variable, if that is there.
pub fn get_code(scope: &Scope, into: u32, free: u32) -> Result<Coder, Memory>
    ensures { IfOk result (λ c. coded_of c ≡ get_code (scope_of scope.now) into free) }
{
    let mut coder = Coder::new(scope.alloc, free);
    if into < scope.variables {
        coder.push(Instr::Get { into })?;
        return Ok(coder);
    }
    Ok(coder)
}

/// What elements of a kind keep of a value they keep also of what it is converted from.
fn kept_value<'a>(kind: Kind, value: &'a Expr) -> &'a Expr
    ensures { expr_of result.now ≡ kept_value kind (expr_of value.now) }
{
    match value {
        Expr::Constant(_) => value,
        Expr::Variable(_) => value,
        Expr::Element { .. } => value,
        Expr::Binary { .. } => value,
        Expr::Unary { operator, operand } => match operator {
            UnaryOperator::Convert(to) => {
                if to.same_as(kind) {
                    return operand;
                }
                value
            }
            UnaryOperator::Negate => value,
            UnaryOperator::Complement => value,
            UnaryOperator::IsZero => value,
        },
    }
}

/// An array that is there: the kind of its elements, and where it begins.
#[derive(Clone, Copy)]
struct There {
    kind: Kind,
    base: Base,
}

/// An element, where its array is there.
pub fn keep_code(
    scope: &Scope,
    array: Array,
    index: &Expr,
    value: &Expr,
    free: u32,
) -> Result<Coder, Memory>
    ensures { IfOk result (λ c. coded_of c ≡ keep_code (scope_of scope.now) array (expr_of index.now) (kept_value array.kind (expr_of value.now)) free) }
{
    let value = kept_value(array.kind, value);
    let shares = keep_shares(scope, array, index, value, free)?;
    let mut coder = begun(scope, &shares, free)?;
    if let Some(base) = base_of(scope, array.base)? {
        let there = There {
            kind: array.kind,
            base,
        };
        store(scope, &shares, there, index, value, &mut coder)?;
        return Ok(coder);
    }
    Ok(coder)
}

/// A value into an element of an array that is there.
fn store(
    scope: &Scope,
    shares: &[Share],
    array: There,
    index: &Expr,
    value: &Expr,
    coder: &mut Coder,
) -> Result<(), Memory>
    ensures { IfOk result (λ _. (free : ℕ) → coded_of coder.new ≡ after (code_of coder.old) (store_at (Some (base_at array.base)) array.kind free (offset_of (shares_said shares.now) (scale_of array.kind) (index_of (scope_of scope.now) (shares_said shares.now) (expr_of index.now) coder.old.free)) (operand (scope_of scope.now) (shares_said shares.now) (expr_of value.now)))) }
{
    let index = index_of(scope, shares, index, coder)?;
    let offset = offset_of(shares, array.kind, index, coder)?;
    let value = operand(scope, shares, value, coder)?;
    coder.push(Instr::Store {
        kind: kind_of(array.kind),
        address: offset.at(array.base),
        value,
    })?;
    Ok(())
}

/// The shares of an element that is stored, and of its value.
fn keep_shares(
    scope: &Scope,
    array: Array,
    index: &Expr,
    value: &Expr,
    first: u32,
) -> Result<Vec<Share>, Memory>
    ensures { IfOk result (λ s. shares_said s.items ≡ shares_of (scope_of scope.now) (scaled_in (scope_of scope.now) (Element array (expr_of index.now)) ++ scaled_in (scope_of scope.now) (expr_of value.now)) first) }
{
    let mut shares = Vec::new(scope.alloc);
    shares_at(scope, array, index, first, &mut shares)?;
    shares_in(scope, value, first, &mut shares)?;
    Ok(shares)
}

/// Where the value of a call goes, if that is there.
fn into_there(scope: &Scope, into: Option<u32>) -> Option<u32>
    ensures { result ≡ into_there (scope_of scope.now) into }
{
    match into {
        None => None,
        Some(x) => {
            if x < scope.variables {
                return Some(x);
            }
            None
        }
    }
}

/// The place of a function in the order of the low program.
pub fn place_in(order: &[u32], function: u32) -> Result<u32, Memory>
    ensures { IfOk result (λ n. n ≡ place_in order.now function) }
{
    let mut place = 0;
    for other in order {
        if *other == function {
            return Ok(place);
        }
        place = sum(place, 1)?;
    }
    Ok(place)
}

/// The instructions of a call.
pub fn call_code(
    scope: &Scope,
    function: u32,
    values: &[Expr],
    arrays: &[HighBase],
    into: Option<u32>,
    free: u32,
) -> Result<Coder, Memory>
    ensures { IfOk result (λ c. coded_of c ≡ call_code (scope_of scope.now) function (map expr_of values.now) arrays.now into free) }
{
    let mut shares = Vec::new(scope.alloc);
    shares_in_all(scope, values, free, &mut shares)?;
    let mut coder = begun(scope, &shares, free)?;
    let mut arguments = Vec::new(scope.alloc);
    values_passed(scope, &shares, values, arrays, &mut arguments, &mut coder)?;
    coder.push(Instr::Call {
        function: place_in(scope.order, function)?,
        arguments,
        into: into_there(scope, into),
    })?;
    Ok(coder)
}

/// The instructions of a test.
pub fn test_code(scope: &Scope, test: &Expr, free: u32) -> Result<(Coder, Comparison), Memory>
    ensures { IfOk result (λ b. tested_in b.0 b.1 ≡ test_code (scope_of scope.now) (expr_of test.now) free) }
{
    let shares = shares_of(scope, test, free)?;
    let mut coder = begun(scope, &shares, free)?;
    let test = tested(scope, &shares, test, &mut coder)?;
    Ok((coder, test))
}
