// The loops of a program, and those whose form gives their bounds.
ghost use Rattle.std.specs.Prelude.{◌≡◌, ◌++◌, ◌∷◌, [], IfOk, OnOk, map};
ghost use Rattle.facts_definitions.specs.FlowFacts.{and_one};
ghost use Rattle.types_tree.specs.View.{function_of, items_of, program_of, statement_of};
ghost use Rattle.bound_finder.specs.Items.{item_loops};
ghost use Rattle.facts_loops.specs.CountingLoops.{derived_among, derived_by, derived_of, functions_loops, items_loops, loops_of, statement_loops, unless_written};

use super::counting::counting;
use c_tree::Pragma;
use facts_definitions::{Bounds, Derived};
use facts_loops::LoopForm;
use std::alloc::{AllocError, Global};
use types_tree::external::Function;
use types_tree::program::Program;
use types_tree::statement::{Item, Statement};
use types_tree::variable::Variable;
use wcc_base::Memory;

fn unless_written(bound: &Option<Pragma>, derived: Option<Bounds>) -> Option<Bounds>
    ensures { result ≡ unless_written bound.now derived }
{
    match bound {
        None => derived,
        Some(_) => None,
    }
}

fn push(loops: &mut Vec<LoopForm>, form: LoopForm) -> Result<(), AllocError>
    ensures { OnOk result (loops.new.items ≡ loops.old.items ++ form ∷ []) }
{
    loops.push(form)?;
    Ok(())
}

#[cycle(statements)]
fn push_statement(
    statement: &Statement,
    variables: &[Variable],
    loops: &mut Vec<LoopForm>,
) -> Result<(), AllocError>
    ensures { OnOk result (loops.new.items ≡ loops.old.items ++ statement_loops variables.now (statement_of statement.now)) }
{
    match statement {
        Statement::Block { items, .. } => {
            push_items(items, variables, loops)?;
            Ok(())
        }
        Statement::Empty { .. } => Ok(()),
        Statement::Evaluate { .. } => Ok(()),
        Statement::Marker { .. } => Ok(()),
        Statement::If { then, .. } => push_statement(then, variables, loops),
        Statement::IfElse {
            then,
            otherwise,
            ..
        } => {
            push_statement(then, variables, loops)?;
            push_statement(otherwise, variables, loops)
        }
        Statement::While {
            number,
            body,
            at,
            ..
        } => {
            push(
                loops,
                LoopForm {
                    number: number.0,
                    at: *at,
                    derived: None,
                },
            )?;
            push_statement(body, variables, loops)
        }
        Statement::Do {
            number,
            body,
            at,
            ..
        } => {
            push(
                loops,
                LoopForm {
                    number: number.0,
                    at: *at,
                    derived: None,
                },
            )?;
            push_statement(body, variables, loops)
        }
        Statement::For {
            number,
            bound,
            start,
            test,
            step,
            body,
            at,
        } => {
            let counted = counting(variables, start, test, step, body);
            push(
                loops,
                LoopForm {
                    number: number.0,
                    at: *at,
                    derived: unless_written(bound, counted),
                },
            )?;
            push_statement(body, variables, loops)
        }
        Statement::Switch { items, .. } => {
            push_items(items, variables, loops)?;
            Ok(())
        }
        Statement::Break { .. } => Ok(()),
        Statement::Continue { .. } => Ok(()),
        Statement::Return { .. } => Ok(()),
    }
}

#[cycle(statements)]
fn push_item(
    item: &Item,
    variables: &[Variable],
    loops: &mut Vec<LoopForm>,
) -> Result<(), AllocError>
    ensures { OnOk result (loops.new.items ≡ loops.old.items ++ item_loops variables.now item.now) }
{
    match item {
        Item::Declaration(_) => Ok(()),
        Item::Statement(statement) => push_statement(statement, variables, loops),
        Item::Restriction(_) => Ok(()),
        Item::Label(_) => Ok(()),
    }
}

#[cycle(statements)]
fn push_items(
    items: &[Item],
    variables: &[Variable],
    loops: &mut Vec<LoopForm>,
) -> Result<(), AllocError>
    ensures { OnOk result (loops.new.items ≡ loops.old.items ++ items_loops variables.now (items_of items.now)) }
{
    for item in items {
        push_item(item, variables, loops)?;
    }
    Ok(())
}

fn push_functions(
    functions: &[Function],
    variables: &[Variable],
    loops: &mut Vec<LoopForm>,
) -> Result<(), AllocError>
    ensures { OnOk result (loops.new.items ≡ loops.old.items ++ functions_loops variables.now (map function_of functions.now)) }
{
    for function in functions {
        push_items(&function.body, variables, loops)?;
    }
    Ok(())
}

/// The loops of a program, in the order of the source.
fn loops_of(program: &Program, alloc: Global) -> Result<Vec<LoopForm>, AllocError>
    ensures { IfOk result (λ loops. loops.items ≡ loops_of (program_of program.now)) }
{
    let mut loops = Vec::new(alloc);
    push_functions(&program.functions, &program.variables, &mut loops)?;
    Ok(loops)
}

fn derived_by(number: u32, bounds: Option<Bounds>) -> Option<Derived>
    ensures { result ≡ derived_by number bounds }
{
    match bounds {
        None => None,
        Some(bounds) => Some(Derived { number, bounds }),
    }
}

/// One more, where there is one.
fn keep(list: &mut Vec<Derived>, one: Option<Derived>) -> Result<(), AllocError>
    ensures { OnOk result (list.new.items ≡ list.old.items ++ and_one one []) }
{
    match one {
        None => Ok(()),
        Some(derived) => {
            list.push(derived)?;
            Ok(())
        }
    }
}

#[tactic(auto, using(crate::proofs::Kept::kept_before))]
fn derived_among(loops: &[LoopForm], alloc: Global) -> Result<Vec<Derived>, AllocError>
    ensures { IfOk result (λ derived. derived.items ≡ derived_among loops.now) }
{
    let mut derived = Vec::new(alloc);
    for form in loops {
        keep(&mut derived, derived_by(form.number, form.derived))?;
    }
    Ok(derived)
}

/// The counting loops of a program that have no pragma, in the order of their numbers, each with the bounds that its form
/// gives.
pub fn derive(alloc: Global, program: &Program) -> Result<Vec<Derived>, Memory>
    ensures { IfOk result (λ derived. derived.items ≡ derived_of (program_of program.now)) }
{
    let loops = loops_of(program, alloc)?;
    let derived = derived_among(&loops, alloc)?;
    Ok(derived)
}
