// Whether an object is an array, and of how many elements.
ghost use Rattle.std.specs.Prelude.{◌≡◌, IfOk};
ghost use Rattle.c_tree.specs.Tree.{NoExpr};
ghost use Rattle.c_tree.specs.View.{exprs_of, initial_of as source_initial, shape_of as source_shape};
ghost use Rattle.types_tree.specs.View.{shape_of};
ghost use Rattle.types_rules.specs.DeclarationRules.{extent_of, has_bad_param_size, has_bad_size, has_brackets, elements, has_no_constant_size, is_bad_size, is_filled, is_size, list_length};
ghost use Rattle.types_rules.specs.Scope.{or_zero};
ghost use Rattle.types_rules.specs.Sights.{first_fault, shape_nodes};
ghost use Rattle.types_rules.specs.Types.{count};
ghost use Rattle.types_rules.specs.Typing.{typed_shape};

use super::rules::both;
use c_tree::declaration::{Initial, Shape as Source};
use c_tree::expression::Expr;
use std::alloc::{AllocError, Global};
use types_expression::check;
use types_rules::{Fault, constant_word};
use types_scope::{Table, narrow};
use types_tree::declaration::Shape;
use types_tree::variable::Extent;

/// What was found in the brackets of an array.
#[derive(Drop)]
pub struct Shaped {
    pub shape: Shape,
    pub fault: Option<Fault>,
}

impl Shaped {
    pub fn let_go(self) {
        drop(self);
    }
}

pub fn check_shape(shape: &Source, table: &Table, alloc: Global) -> Result<Shaped, AllocError>
    ensures shape { IfOk result (λ r. shape_of r.shape ≡ typed_shape (source_shape shape.now) table.now) }
    ensures fault { IfOk result (λ r. r.fault ≡ first_fault (shape_nodes (source_shape shape.now) table.now)) }
{
    match shape {
        Source::Scalar => Ok(Shaped {
            shape: Shape::Scalar,
            fault: None,
        }),
        Source::Unsized => Ok(Shaped {
            shape: Shape::Unsized,
            fault: None,
        }),
        Source::Sized(size) => {
            let size = check(size, false, table, alloc)?;
            Ok(Shaped {
                shape: Shape::Sized(Box::into_inner(size.value.expr)),
                fault: size.fault,
            })
        }
    }
}

/// The first fault in the brackets of an array.
pub fn shape_fault(
    shape: &Source,
    table: &Table,
    alloc: Global,
) -> Result<Option<Fault>, AllocError>
    ensures { IfOk result (λ fault. fault ≡ first_fault (shape_nodes (source_shape shape.now) table.now)) }
{
    let found = check_shape(shape, table, alloc)?;
    let fault = found.fault;
    found.let_go();
    Ok(fault)
}

pub fn has_brackets(shape: &Source) -> bool
    ensures { result ≡ has_brackets (source_shape shape.now) }
{
    match shape {
        Source::Scalar => false,
        Source::Unsized => true,
        Source::Sized(_) => true,
    }
}

pub fn has_no_constant_size(shape: &Source) -> bool
    ensures { result ≡ has_no_constant_size (source_shape shape.now) }
{
    match shape {
        Source::Scalar => false,
        Source::Unsized => false,
        Source::Sized(size) => constant_word(size).is_none(),
    }
}

fn is_size(count: usize) -> bool
    ensures { result ≡ is_size count }
{
    count >= 1 && count <= 262_144
}

fn is_bad_size(count: Option<u32>, least: usize) -> bool
    ensures { result ≡ is_bad_size count least }
{
    match count {
        None => false,
        Some(count) => !(is_size(count as usize) && least <= count as usize),
    }
}

fn count_values(values: &[Expr]) -> usize
    ensures { result ≡ count (exprs_of NoExpr values.now) }
{
    values.len()
}

/// The number of values in a list.
pub fn list_length(initial: &Initial) -> usize
    ensures { result ≡ list_length (source_initial initial.now) }
{
    match initial {
        Initial::Absent => 0,
        Initial::Value(_) => 0,
        Initial::List { values, .. } => count_values(values),
    }
}

/// Whether a size is no size of an array, or less than the length of its list.
pub fn has_bad_size(shape: &Source, initial: &Initial) -> bool
    ensures { result ≡ has_bad_size (source_shape shape.now) (source_initial initial.now) }
{
    match shape {
        Source::Scalar => false,
        Source::Unsized => !is_size(list_length(initial)),
        Source::Sized(size) => is_bad_size(constant_word(size), list_length(initial)),
    }
}

fn or_zero(word: Option<u32>) -> u32
    ensures { result ≡ or_zero word }
{
    match word {
        Some(word) => word,
        None => 0,
    }
}

/// How many values an object holds.
pub fn extent(shape: &Source, initial: &Initial) -> Result<Extent, AllocError>
    ensures { IfOk result (λ e. e ≡ extent_of (source_shape shape.now) (source_initial initial.now)) }
{
    match shape {
        Source::Scalar => Ok(Extent::Scalar),
        Source::Unsized => {
            let count = narrow(list_length(initial))?;
            Ok(Extent::Array(count))
        }
        Source::Sized(size) => Ok(Extent::Array(or_zero(constant_word(size)))),
    }
}

pub fn has_bad_param_size(shape: &Source) -> bool
    ensures { result ≡ has_bad_param_size (source_shape shape.now) }
{
    match shape {
        Source::Scalar => false,
        Source::Unsized => false,
        Source::Sized(size) => is_bad_size(constant_word(size), 0),
    }
}

fn elements(extent: Extent) -> u32
    ensures { result ≡ elements extent }
{
    match extent {
        Extent::Scalar => 1,
        Extent::Array(count) => count,
        Extent::Parameter => 1,
    }
}

/// Whether a list within a block leaves elements of its array over.
pub fn is_filled(shape: &Source, initial: &Initial, table: &Table) -> Result<bool, AllocError>
    ensures { IfOk result (λ filled. filled ≡ is_filled (source_shape shape.now) (source_initial initial.now) table.now) }
{
    match initial {
        Initial::Absent => Ok(false),
        Initial::Value(_) => Ok(false),
        Initial::List { values, .. } => {
            let room = elements(extent(shape, initial)?) as usize;
            let more = count_values(values) < room;
            Ok(both(table.in_block(), both(has_brackets(shape), more)))
        }
    }
}
