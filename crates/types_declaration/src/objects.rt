// Objects.
ghost use Rattle.std.specs.Prelude.{◌≡◌, ◌++◌, ◌∷◌, [], IfOk, OnOk};
ghost use Rattle.c_tree.specs.Named.{map_option};
ghost use Rattle.c_tree.specs.View.{initial_of as source_initial, object_of as source_object, shape_of as source_shape};
ghost use Rattle.types_tree.specs.View.{loop_of};
ghost use Rattle.types_rules.specs.DeclarationRules.{has_wrong_initial, with_filling};
ghost use Rattle.types_rules.specs.Typing.{filling_of};
ghost use Rattle.types_declaration.specs.Objects.{AreObjects, IsObject, base_said, early_rule};

use super::rules::{both, either, fault_at, rule_or, when};
use super::shapes::{
    check_shape, extent, has_bad_size, has_brackets, has_no_constant_size, is_filled,
};
use super::values::{check_initial, has_no_constant_value};
use c_tree::declaration::{Initial, Object as Source, Shape};
use std::alloc::{AllocError, Global};
use types_expression::first_of;
use types_rules::{Fault, Rule};
use types_scope::{Table, narrow};
use types_tree::declaration::Object;
use types_tree::expression::ObjectId;
use types_tree::statement::LoopId;
use types_value::Kind;

/// What a declaration says of each of its objects.
#[derive(Clone, Copy)]
pub struct Base {
    pub kind: Kind,
    pub is_const: bool,
}

/// What was found in an object.
#[derive(Drop)]
pub struct CheckedObject {
    pub object: Object,
    pub fault: Option<Fault>,
}

/// What was found in the objects of a declaration.
#[derive(Drop)]
pub struct CheckedObjects {
    pub objects: Vec<Object>,
    pub fault: Option<Fault>,
}

/// Whether a list initialises a scalar, an expression an array, or a const object of a block lacks a value.
fn has_wrong_initial(shape: &Shape, initial: &Initial, is_const: bool, table: &Table) -> bool
    ensures { result ≡ has_wrong_initial (source_shape shape.now) (source_initial initial.now) is_const table.now }
{
    match initial {
        Initial::Absent => both(is_const, table.in_block()),
        Initial::Value(_) => has_brackets(shape),
        Initial::List { .. } => !has_brackets(shape),
    }
}

/// The rules that come before that on void, asked before the object is declared.
fn early_rule(object: &Source, table: &Table) -> Option<Rule>
    ensures { result ≡ early_rule (source_object object.now) table.now }
{
    let redeclared = table.found_here(object.name.0).is_some();
    let value = both(!table.in_block(), has_no_constant_value(&object.initial));
    let constant = either(has_no_constant_size(&object.shape), value);
    let size = has_bad_size(&object.shape, &object.initial);
    rule_or(
        when(redeclared, Rule::Redeclared),
        rule_or(when(constant, Rule::Constant), when(size, Rule::Size)),
    )
}

/// Counts the loop that fills what a list leaves over.
fn fill(filled: bool, table: &mut Table) -> Result<Option<LoopId>, AllocError>
    ensures filling { IfOk result (λ filling. map_option loop_of filling ≡ filling_of filled table.old.loops) }
    ensures after { OnOk result (table.new ≡ with_filling filled table.old) }
{
    if !filled {
        return Ok(None);
    }
    table.count_loop()?;
    Ok(Some(LoopId(table.loops())))
}

/// Checks an object, and declares it.
fn check_object(
    base: Base,
    object: &Source,
    table: &mut Table,
    alloc: Global,
) -> Result<CheckedObject, AllocError>
    ensures { IfOk result (λ r. IsObject r (base_said base) (source_object object.now) table.old table.new) }
{
    let number = narrow(table.objects())?;
    let early = early_rule(object, table);
    let wrong = has_wrong_initial(&object.shape, &object.initial, base.is_const, table);
    let filled = is_filled(&object.shape, &object.initial, table)?;
    let held = extent(&object.shape, &object.initial)?;
    let shape = check_shape(&object.shape, table, alloc)?;
    match table.declare(object.name.0, base.kind, base.is_const, held) {
        Ok(()) => {}
        Err(memory) => {
            shape.let_go();
            return Err(memory);
        }
    }
    let filling = match fill(filled, table) {
        Ok(filling) => filling,
        Err(memory) => {
            shape.let_go();
            return Err(memory);
        }
    };
    let initial = match check_initial(base.kind, filling, &object.initial, table, alloc) {
        Ok(initial) => initial,
        Err(memory) => {
            shape.let_go();
            return Err(memory);
        }
    };
    let void = either(base.kind.is_void(), initial.void);
    let late = rule_or(when(void, Rule::Void), when(wrong, Rule::Initial));
    let own = fault_at(rule_or(early, late), object.at);
    Ok(CheckedObject {
        object: Object {
            object: ObjectId(number),
            shape: shape.shape,
            initial: initial.initial,
            at: object.at,
        },
        fault: first_of(own, first_of(shape.fault, initial.fault)),
    })
}

fn push(objects: &mut Vec<Object>, object: Object) -> Result<(), AllocError>
    ensures { OnOk result (objects.new.items ≡ objects.old.items ++ object ∷ []) }
{
    objects.push(object)?;
    Ok(())
}

/// Checks the objects of a declaration, and declares each.
pub fn check_objects(
    base: Base,
    given: &[Source],
    table: &mut Table,
    alloc: Global,
) -> Result<CheckedObjects, AllocError>
    ensures { IfOk result (λ r. AreObjects r (base_said base) given.now table.old table.new) }
{
    let mut objects = Vec::new(alloc);
    let mut fault = None;
    for source in given {
        let inner = check_object(base, source, table, alloc)?;
        fault = first_of(fault, inner.fault);
        push(&mut objects, inner.object)?;
    }
    Ok(CheckedObjects { objects, fault })
}
