// The loops of statements, one behind the other.
ghost use Rattle.std.specs.Prelude.{◌≡◌, ◌-◌, ◌++◌, ◌∷◌, [], IfOk, OnOk, map};
ghost use Rattle.c_tree.specs.Named.{map_option};
ghost use Rattle.types_tree.specs.View.{declaration_of, function_of, initial_of, items_of, loop_of, object_of, start_of, statement_of};
ghost use Rattle.make_loops.specs.Numbers.{declaration_numbers, filling_numbers, for_numbers, functions_numbers, initial_numbers, item_numbers, items_numbers, objects_numbers, renumbered, start_numbers, statement_numbers};

use super::before::loops_before;
use super::renumbered::Renumbered;
use make_pieces::numbers::sum;
use std::alloc::Global;
use types_tree::declaration::{Declaration, Initial, Object};
use types_tree::external::Function;
use types_tree::statement::{ForStart, Item, LoopId, Statement};
use wcc_base::Memory;

fn push(old: u32, new: u32, loops: &mut Vec<Renumbered>) -> Result<(), Memory>
    ensures { OnOk result (loops.new.items ≡ loops.old.items ++ renumbered old new ∷ []) }
{
    loops.push(Renumbered { old, new })?;
    Ok(())
}

/// A loop that keeps its number.
fn push_loop(number: LoopId, loops: &mut Vec<Renumbered>) -> Result<(), Memory>
    ensures { OnOk result (loops.new.items ≡ loops.old.items ++ renumbered (number.0 - 1) (number.0 - 1) ∷ []) }
{
    let old = number.0.saturating_sub(1);
    push(old, old, loops)
}

/// A filling, which stands before `shift` loops whose keywords come first.
fn push_filling(
    filling: Option<LoopId>,
    shift: u32,
    loops: &mut Vec<Renumbered>,
) -> Result<(), Memory>
    ensures { OnOk result (loops.new.items ≡ loops.old.items ++ filling_numbers shift (map_option loop_of filling)) }
{
    match filling {
        None => Ok(()),
        Some(number) => {
            let old = number.0.saturating_sub(1);
            push(old, old.saturating_sub(shift), loops)
        }
    }
}

fn push_initial(initial: &Initial, shift: u32, loops: &mut Vec<Renumbered>) -> Result<(), Memory>
    ensures { OnOk result (loops.new.items ≡ loops.old.items ++ initial_numbers shift (initial_of initial.now)) }
{
    match initial {
        Initial::Absent => Ok(()),
        Initial::Value(_) => Ok(()),
        Initial::List { filling, .. } => push_filling(*filling, shift, loops),
    }
}

fn push_objects(objects: &[Object], shift: u32, loops: &mut Vec<Renumbered>) -> Result<(), Memory>
    ensures { OnOk result (loops.new.items ≡ loops.old.items ++ objects_numbers shift (map object_of objects.now)) }
{
    for object in objects {
        push_initial(&object.initial, shift, loops)?;
    }
    Ok(())
}

fn push_declaration(
    declaration: &Declaration,
    shift: u32,
    loops: &mut Vec<Renumbered>,
) -> Result<(), Memory>
    ensures { OnOk result (loops.new.items ≡ loops.old.items ++ declaration_numbers shift (declaration_of declaration.now)) }
{
    match declaration {
        Declaration::Objects { objects, .. } => push_objects(objects, shift, loops),
        Declaration::Prototype { .. } => Ok(()),
    }
}

fn push_start(start: &ForStart, loops: &mut Vec<Renumbered>) -> Result<(), Memory>
    ensures { OnOk result (loops.new.items ≡ loops.old.items ++ start_numbers (start_of start.now)) }
{
    match start {
        ForStart::Absent => Ok(()),
        ForStart::Expression(_) => Ok(()),
        ForStart::Declaration(declaration) => push_declaration(declaration, 1, loops),
    }
}

/// The loop of a `for`, and the fillings in its head.
fn push_for(number: LoopId, start: &ForStart, loops: &mut Vec<Renumbered>) -> Result<(), Memory>
    ensures { OnOk result (loops.new.items ≡ loops.old.items ++ for_numbers number.0 (start_of start.now)) }
{
    let old = number.0.saturating_sub(1);
    let new = sum(old, loops_before(start)?)?;
    push(old, new, loops)?;
    push_start(start, loops)
}

#[cycle(statements)]
fn push_statement(statement: &Statement, loops: &mut Vec<Renumbered>) -> Result<(), Memory>
    ensures { OnOk result (loops.new.items ≡ loops.old.items ++ statement_numbers (statement_of statement.now)) }
{
    match statement {
        Statement::Block { items, .. } => {
            push_items(items, loops)?;
            Ok(())
        }
        Statement::Empty { .. } => Ok(()),
        Statement::Evaluate { .. } => Ok(()),
        Statement::Marker { .. } => Ok(()),
        Statement::If { then, .. } => push_statement(then, loops),
        Statement::IfElse {
            then,
            otherwise,
            ..
        } => {
            push_statement(then, loops)?;
            push_statement(otherwise, loops)
        }
        Statement::While { number, body, .. } => {
            push_loop(*number, loops)?;
            push_statement(body, loops)
        }
        Statement::Do { number, body, .. } => {
            push_loop(*number, loops)?;
            push_statement(body, loops)
        }
        Statement::For {
            number,
            start,
            body,
            ..
        } => {
            push_for(*number, start, loops)?;
            push_statement(body, loops)
        }
        Statement::Switch { items, .. } => {
            push_items(items, loops)?;
            Ok(())
        }
        Statement::Break { .. } => Ok(()),
        Statement::Continue { .. } => Ok(()),
        Statement::Return { .. } => Ok(()),
    }
}

#[cycle(statements)]
fn push_item(item: &Item, loops: &mut Vec<Renumbered>) -> Result<(), Memory>
    ensures { OnOk result (loops.new.items ≡ loops.old.items ++ item_numbers item.now) }
{
    match item {
        Item::Declaration(declaration) => push_declaration(declaration, 0, loops),
        Item::Statement(statement) => push_statement(statement, loops),
        Item::Restriction(_) => Ok(()),
        Item::Label(_) => Ok(()),
    }
}

#[cycle(statements)]
fn push_items(items: &[Item], loops: &mut Vec<Renumbered>) -> Result<(), Memory>
    ensures { OnOk result (loops.new.items ≡ loops.old.items ++ items_numbers (items_of items.now)) }
{
    for item in items {
        push_item(item, loops)?;
    }
    Ok(())
}

/// The loops of functions, in source order.
pub fn loops_of(alloc: Global, functions: &[Function]) -> Result<Vec<Renumbered>, Memory>
    ensures { IfOk result (λ loops. loops.items ≡ functions_numbers (map function_of functions.now)) }
{
    let mut loops = Vec::new(alloc);
    for function in functions {
        push_items(&function.body, &mut loops)?;
    }
    Ok(loops)
}
