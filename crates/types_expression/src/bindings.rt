// What a name stands for, asked in the words of the rules.
ghost use Rattle.std.specs.Prelude.{◌≡◌};
ghost use Rattle.types_rules.specs.ExpressionRules.{is_element_place, is_scalar_place, names_array, names_no_array};
ghost use Rattle.types_rules.specs.Types.{element_kind, is_array_for, is_callable, is_unknown, name_kind};
ghost use Rattle.types_rules.specs.Typing.{object_number};

use types_rules::scope::{Binding, ParamType};
use types_tree::expression::ObjectId;
use types_value::Kind;

pub fn is_unknown(binding: Option<Binding>) -> bool
    ensures { result ≡ is_unknown binding }
{
    binding.is_none()
}

pub fn is_callable(binding: Option<Binding>) -> bool
    ensures { result ≡ is_callable binding }
{
    match binding {
        Some(Binding::Function) => true,
        Some(Binding::Object { .. }) => false,
        None => false,
    }
}

pub fn names_array(binding: Option<Binding>) -> bool
    ensures { result ≡ names_array binding }
{
    match binding {
        Some(Binding::Object { is_array, .. }) => is_array,
        Some(Binding::Function) => false,
        None => false,
    }
}

pub fn names_no_array(binding: Option<Binding>) -> bool
    ensures { result ≡ names_no_array binding }
{
    match binding {
        Some(Binding::Object { is_array, .. }) => !is_array,
        Some(Binding::Function) => true,
        None => false,
    }
}

/// The type of a name that is used as a value.
pub fn name_kind(binding: Option<Binding>) -> Kind
    ensures { result ≡ name_kind binding }
{
    match binding {
        Some(Binding::Object { kind, is_array, .. }) => { if is_array { Kind::Int } else { kind } }
        Some(Binding::Function) => Kind::Int,
        None => Kind::Int,
    }
}

pub fn element_kind(binding: Option<Binding>) -> Kind
    ensures { result ≡ element_kind binding }
{
    match binding {
        Some(Binding::Object { kind, is_array, .. }) => { if is_array { kind } else { Kind::Int } }
        Some(Binding::Function) => Kind::Int,
        None => Kind::Int,
    }
}

/// Whether a name stands for a scalar that may be written.
pub fn is_scalar_place(binding: Option<Binding>) -> bool
    ensures { result ≡ is_scalar_place binding }
{
    match binding {
        Some(
            Binding::Object {
                is_array,
                is_const,
                ..
            },
        ) => !is_array && !is_const,
        Some(Binding::Function) => true,
        None => true,
    }
}

/// Whether a name stands for an array whose elements may be written.
pub fn is_element_place(binding: Option<Binding>) -> bool
    ensures { result ≡ is_element_place binding }
{
    match binding {
        Some(
            Binding::Object {
                is_array,
                is_const,
                ..
            },
        ) => { if is_array { !is_const } else { true } }
        Some(Binding::Function) => true,
        None => true,
    }
}

/// Whether a name stands for an array that a parameter takes.
pub fn is_array_for(param: ParamType, binding: Option<Binding>) -> bool
    ensures { result ≡ is_array_for param binding }
{
    match binding {
        Some(
            Binding::Object {
                kind,
                is_array,
                is_const,
                ..
            },
        ) => {
            if is_array {
                kind.is(param.kind) && (!is_const || param.is_const)
            } else {
                false
            }
        }
        Some(Binding::Function) => false,
        None => true,
    }
}

pub fn object_of(binding: Option<Binding>) -> ObjectId
    ensures { result.0 ≡ object_number binding }
{
    match binding {
        Some(Binding::Object { number, .. }) => number,
        Some(Binding::Function) => ObjectId(0),
        None => ObjectId(0),
    }
}
