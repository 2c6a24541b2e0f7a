// The arrays of a program, and what they hold at first.
ghost use Rattle.std.specs.Prelude.{◌≡◌, ◌++◌, ◌∷◌, List, IfOk, OnOk, map};
ghost use Rattle.types_tree.specs.View.{external_of};
ghost use Rattle.types_tree.specs.declared.variable.Variable.{Variable};
ghost use Rattle.high_ir.specs.View.{object_of};
ghost use Rattle.plan_definition.specs.Layouts.{elements_of, given_object, givens, local_object, objects_from, storage_of};
ghost use Rattle.make_program.specs.Parts.{given_of, given_or_none};

use super::givens::{Given, givens};
use high_ir::object::{Object, Storage};
use make_pieces::operators::kind_of;
use std::alloc::Global;
use std::collections::VecDeque;
use types_tree::external::External;
use types_tree::variable::{Duration, Extent, Variable};
use wcc_base::Memory;

fn storage_of(constant: bool) -> Storage
    ensures { result ≡ storage_of constant }
{
    if constant {
        return Storage::Constant;
    }
    Storage::Global
}

fn elements_of(extent: Extent) -> u32
    ensures { result ≡ elements_of extent }
{
    match extent {
        Extent::Scalar => 1,
        Extent::Array(count) => count,
        Extent::Parameter => 1,
    }
}

/// An object of file level.
fn given_object(alloc: Global, variable: Variable, given: Option<Given>) -> Object
    ensures { object_of result ≡ given_object variable (given_or_none given) }
{
    let kind = kind_of(variable.kind);
    let length = elements_of(variable.extent);
    match given {
        None => Object {
            kind,
            storage: Storage::Global,
            length,
            values: Vec::new(alloc),
        },
        Some(Given { constant, values }) => Object {
            kind,
            storage: storage_of(constant),
            length,
            values,
        },
    }
}

/// An array of a function.
fn local_object(alloc: Global, variable: Variable, count: u32) -> Object
    ensures { object_of result ≡ local_object variable count }
{
    Object {
        kind: kind_of(variable.kind),
        storage: Storage::Local,
        length: count,
        values: Vec::new(alloc),
    }
}

/// Adds the array in which an object lives, where it is no scalar of a function.
fn add_object(
    alloc: Global,
    variable: Variable,
    given: &mut VecDeque<Given>,
    objects: &mut Vec<Object>,
) -> Result<(), Memory>
    ensures { OnOk result ((rest : List Variable) → map object_of objects.new.items ++ objects_from rest (map given_of given.new.items) ≡ map object_of objects.old.items ++ objects_from (variable ∷ rest) (map given_of given.old.items)) }
{
    match variable.duration {
        Duration::Static => {
            objects.push(given_object(alloc, variable, given.pop_front()))?;
            Ok(())
        }
        Duration::Automatic => match variable.extent {
            Extent::Scalar => Ok(()),
            Extent::Array(count) => {
                objects.push(local_object(alloc, variable, count))?;
                Ok(())
            }
            Extent::Parameter => Ok(()),
        },
    }
}

/// The arrays of a program, in the order of its objects.
pub fn objects(
    alloc: Global,
    variables: &[Variable],
    items: &[External],
) -> Result<Vec<Object>, Memory>
    ensures { IfOk result (λ v. map object_of v.items ≡ objects_from variables.now (givens (map external_of items.now))) }
{
    let mut given = givens(alloc, items)?;
    let mut objects = Vec::new(alloc);
    for variable in variables {
        add_object(alloc, *variable, &mut given, &mut objects)?;
    }
    Ok(objects)
}
