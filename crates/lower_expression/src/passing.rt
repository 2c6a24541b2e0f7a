// What is passed to a function.
ghost use Rattle.std.specs.Prelude.{◌≡◌, ℕ, IfOk, map};
ghost use Rattle.high_ir.specs.View.{expr_of};
ghost use Rattle.lower_expression.specs.Behind.{after_passing, after_valued};
ghost use Rattle.lower_expression.specs.View.{code_of, passing_in, pointed, scope_of, shares_of, valued_of};
ghost use Rattle.lower_definition.specs.Values.{Passing, arrays_passed, operand, passed_array, then_passed, values_passed};

use super::scope::Scope;
use super::sharing::Share;
use super::walk::operand;
use high_ir::expression::Expr;
use high_ir::object::Base as HighBase;
use low_ir::{Address, Base, Instr, Operand};
use lower_coder::Coder;
use lower_coder::numbers::sum;
use wcc_base::Memory;

/// A pointer to an array.
fn point(object: u32, coder: &mut Coder) -> Result<Operand, Memory>
    ensures { IfOk result (λ x. valued_of coder.new x ≡ after_valued (code_of coder.old) (pointed object coder.old.free)) }
{
    let into = coder.free;
    coder.push(Instr::Point {
        into,
        address: Address {
            base: Base::Object(object),
            offset: None,
            displacement: 0,
        },
    })?;
    coder.fresh()?;
    Ok(Operand::Register(into))
}

/// A pointer to an array, or the one that was passed; 0 for one that isn't there.
fn array_passed(scope: &Scope, array: HighBase, coder: &mut Coder) -> Result<Operand, Memory>
    ensures { IfOk result (λ x. valued_of coder.new x ≡ after_valued (code_of coder.old) (passed_array (scope_of scope.now) array coder.old.free)) }
{
    match array {
        HighBase::Object(object) => {
            if object < scope.objects {
                return Ok(point(object, coder)?);
            }
            Ok(Operand::Constant(0))
        }
        HighBase::Parameter(parameter) => {
            if (parameter as usize) < scope.claims.len() {
                return Ok(Operand::Register(sum(scope.variables, parameter)?));
            }
            Ok(Operand::Constant(0))
        }
    }
}

/// One array as an argument behind others.
fn pass_array(
    scope: &Scope,
    array: HighBase,
    arguments: &mut Vec<Operand>,
    coder: &mut Coder,
) -> Result<(), Memory>
    ensures { IfOk result (λ _. (rest : ℕ → Passing) → after_passing (passing_in coder.new arguments.new.items) (rest coder.new.free) ≡ after_passing (passing_in coder.old arguments.old.items) (then_passed (passed_array (scope_of scope.now) array coder.old.free) rest)) }
{
    arguments.push(array_passed(scope, array, coder)?)?;
    Ok(())
}

/// Arrays as arguments behind others.
fn arrays_passed(
    scope: &Scope,
    arrays: &[HighBase],
    arguments: &mut Vec<Operand>,
    coder: &mut Coder,
) -> Result<(), Memory>
    ensures { IfOk result (λ _. passing_in coder.new arguments.new.items ≡ after_passing (passing_in coder.old arguments.old.items) (arrays_passed (scope_of scope.now) arrays.now coder.old.free)) }
{
    for array in arrays {
        pass_array(scope, *array, arguments, coder)?;
    }
    Ok(())
}

/// One value as an argument behind others.
fn pass_value(
    scope: &Scope,
    shares: &[Share],
    value: &Expr,
    arguments: &mut Vec<Operand>,
    coder: &mut Coder,
) -> Result<(), Memory>
    ensures { IfOk result (λ _. (rest : ℕ → Passing) → after_passing (passing_in coder.new arguments.new.items) (rest coder.new.free) ≡ after_passing (passing_in coder.old arguments.old.items) (then_passed (operand (scope_of scope.now) (shares_of shares.now) (expr_of value.now) coder.old.free) rest)) }
{
    arguments.push(operand(scope, shares, value, coder)?)?;
    Ok(())
}

/// Values and arrays as arguments.
pub fn values_passed(
    scope: &Scope,
    shares: &[Share],
    values: &[Expr],
    arrays: &[HighBase],
    arguments: &mut Vec<Operand>,
    coder: &mut Coder,
) -> Result<(), Memory>
    ensures { IfOk result (λ _. passing_in coder.new arguments.new.items ≡ after_passing (passing_in coder.old arguments.old.items) (values_passed (scope_of scope.now) (shares_of shares.now) (map expr_of values.now) arrays.now coder.old.free)) }
{
    for value in values {
        pass_value(scope, shares, value, arguments, coder)?;
    }
    arrays_passed(scope, arrays, arguments, coder)
}
