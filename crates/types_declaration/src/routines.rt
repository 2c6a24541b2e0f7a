// Types of functions.
ghost use Rattle.std.specs.Prelude.{◌≡◌, ◌++◌, ◌∷◌, [], IfOk, OnOk};
ghost use Rattle.c_tree.specs.Tree.{Nothing};
ghost use Rattle.c_tree.specs.View.{param_of as source_param, row_of};
ghost use Rattle.types_rules.specs.DeclarationRules.{has_other_type, is_nameless, is_no_list, is_object, is_void_alone, param_type, redeclares, routine, types_of};
ghost use Rattle.types_rules.specs.Scope.{routine_of, same_bool, same_param, same_params, same_type};
ghost use Rattle.types_rules.specs.Types.{or_int};

use super::rules::{both, either};
use super::shapes::has_brackets;
use c_tree::declaration::{Param as Source, Shape};
use c_tree::expression::Specifier;
use std::alloc::{AllocError, Global};
use types_rules::scope::{Binding, ParamType, Routine};
use types_rules::{is_const, kind_spelled};
use types_scope::Table;
use types_value::Kind;
use wcc_base::Items;

fn or_int(kind: Kind) -> Kind
    ensures { result ≡ or_int kind }
{
    if kind.is_void() { Kind::Int } else { kind }
}

fn is_void_alone(specifiers: &[Specifier]) -> bool
    ensures { result ≡ is_void_alone specifiers.now }
{
    match specifiers {
        [Specifier::Void] => true,
        _ => false,
    }
}

fn is_nameless(param: &Source) -> bool
    ensures { result ≡ is_nameless (source_param param.now) }
{
    match param.name {
        Some(_) => false,
        None => match &param.shape {
            Shape::Scalar => is_void_alone(&param.specifiers),
            Shape::Unsized => false,
            Shape::Sized(_) => false,
        },
    }
}

/// Whether a lone `void`, or nothing, stands for parameters.
pub fn is_no_list(given: &[Source]) -> bool
    ensures { result ≡ is_no_list (row_of source_param Nothing given.now) }
{
    match given {
        [] => true,
        [one] => is_nameless(one),
        _ => false,
    }
}

fn param_type(param: &Source) -> ParamType
    ensures { result ≡ param_type (source_param param.now) }
{
    let is_array = has_brackets(&param.shape);
    ParamType {
        kind: or_int(kind_spelled(&param.specifiers)),
        is_array,
        is_const: both(is_array, is_const(&param.specifiers)),
    }
}

fn push_type(types: &mut Vec<ParamType>, param: ParamType) -> Result<(), AllocError>
    ensures { OnOk result (types.new.items ≡ types.old.items ++ param ∷ []) }
{
    types.push(param)?;
    Ok(())
}

/// The types of parameters.
fn types_of(given: &[Source], alloc: Global) -> Result<Items<ParamType>, AllocError>
    ensures { IfOk result (λ types. types ≡ types_of (row_of source_param Nothing given.now)) }
{
    let mut types = Vec::new(alloc);
    if is_no_list(given) {
        return Ok(Items::new(types));
    }
    for param in given {
        push_type(&mut types, param_type(param))?;
    }
    Ok(Items::new(types))
}

/// The type of a function.
pub fn routine(
    specifiers: &[Specifier],
    given: &[Source],
    alloc: Global,
) -> Result<Routine, AllocError>
    ensures { IfOk result (λ r. r ≡ routine specifiers.now (row_of source_param Nothing given.now)) }
{
    Ok(Routine {
        result: kind_spelled(specifiers),
        params: types_of(given, alloc)?,
    })
}

fn same_bool(one: bool, other: bool) -> bool
    ensures { result ≡ same_bool one other }
{
    if one { other } else { !other }
}

fn same_param(one: ParamType, other: ParamType) -> bool
    ensures { result ≡ same_param one other }
{
    let array = same_bool(one.is_array, other.is_array);
    let is_const = same_bool(one.is_const, other.is_const);
    both(one.kind.is(other.kind), both(array, is_const))
}

fn same_params(one: &[ParamType], other: &[ParamType]) -> bool
    ensures { result ≡ same_params one.now other.now }
{
    if one.len() != other.len() {
        return false;
    }
    for i in 0..one.len() {
        if !same_param(one[i], other[i]) {
            return false;
        }
    }
    true
}

fn same_type(one: &Routine, other: &Routine) -> bool
    ensures { result ≡ same_type one.now other.now }
{
    let params = same_params(one.params.as_slice(), other.params.as_slice());
    both(one.result.is(other.result), params)
}

fn is_object(binding: Option<Binding>) -> bool
    ensures { result ≡ is_object binding }
{
    match binding {
        None => false,
        Some(Binding::Object { .. }) => true,
        Some(Binding::Function) => false,
    }
}

/// Whether a function was declared with another type.
fn has_other_type(name: u32, routine: &Routine, table: &Table) -> bool
    ensures { result ≡ has_other_type (routine_of name table.now) routine.now }
{
    match table.routine(name) {
        None => false,
        Some(known) => !same_type(known, routine),
    }
}

/// Whether an object of this scope has the function's name, or the function has another type already.
pub fn redeclares(name: u32, routine: &Routine, table: &Table) -> bool
    ensures { result ≡ redeclares name routine.now table.now }
{
    let object = is_object(table.found_here(name));
    either(object, has_other_type(name, routine, table))
}
