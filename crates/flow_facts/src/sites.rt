// What stands in a program that facts are read from.
ghost use Rattle.std.specs.Prelude.{◌≡◌, ◌++◌, Some, IfOk, OnOk, map};
ghost use Rattle.facts_definitions.specs.Sites.{declaration_sites, external_sites, externals_sites, function_sites, initial_sites, items_sites, objects_sites, sites_of, start_sites, statement_sites};
ghost use Rattle.types_tree.specs.View.{declaration_of, external_of, function_of, initial_of, items_of, object_of, program_of, start_of, statement_of};
ghost use Rattle.flow_facts.specs.Items.{item_sites};

use super::listing::{
    elements_of, push_filling, push_function, push_loop, push_marker, push_restriction,
};
use facts_definitions::Site;
use std::alloc::{AllocError, Global};
use types_tree::declaration::{Declaration, Initial, Object};
use types_tree::external::{External, Function};
use types_tree::program::Program;
use types_tree::statement::{ForStart, Item, Statement};
use types_tree::variable::Variable;

#[tactic(auto, using(crate::proofs::Rows::count_all))]
fn push_initial(initial: &Initial, elements: u32, sites: &mut Vec<Site>) -> Result<(), AllocError>
    ensures { OnOk result (sites.new.items ≡ sites.old.items ++ initial_sites elements (initial_of initial.now)) }
{
    match initial {
        Initial::Absent => Ok(()),
        Initial::Value(_) => Ok(()),
        Initial::List {
            values,
            filling,
            ..
        } => {
            let values = values.as_slice();
            push_filling(*filling, elements, values.len(), sites)
        }
    }
}

fn push_objects(
    objects: &[Object],
    variables: &[Variable],
    sites: &mut Vec<Site>,
) -> Result<(), AllocError>
    ensures { OnOk result (sites.new.items ≡ sites.old.items ++ objects_sites variables.now (map object_of objects.now)) }
{
    for object in objects {
        let elements = elements_of(variables, object.object.0);
        push_initial(&object.initial, elements, sites)?;
    }
    Ok(())
}

fn push_declaration(
    declaration: &Declaration,
    variables: &[Variable],
    sites: &mut Vec<Site>,
) -> Result<(), AllocError>
    ensures { OnOk result (sites.new.items ≡ sites.old.items ++ declaration_sites variables.now (declaration_of declaration.now)) }
{
    match declaration {
        Declaration::Objects { objects, .. } => push_objects(objects, variables, sites),
        Declaration::Prototype { name, .. } => push_function(*name, sites),
    }
}

fn push_start(
    start: &ForStart,
    variables: &[Variable],
    sites: &mut Vec<Site>,
) -> Result<(), AllocError>
    ensures { OnOk result (sites.new.items ≡ sites.old.items ++ start_sites variables.now (start_of start.now)) }
{
    match start {
        ForStart::Absent => Ok(()),
        ForStart::Expression(_) => Ok(()),
        ForStart::Declaration(declaration) => push_declaration(declaration, variables, sites),
    }
}

#[cycle(statements)]
fn push_statement(
    statement: &Statement,
    variables: &[Variable],
    sites: &mut Vec<Site>,
    alloc: Global,
) -> Result<(), AllocError>
    ensures { OnOk result (sites.new.items ≡ sites.old.items ++ statement_sites variables.now (statement_of statement.now)) }
{
    match statement {
        Statement::Block { items, .. } => {
            push_items(items, variables, sites, alloc)?;
            Ok(())
        }
        Statement::Empty { .. } => Ok(()),
        Statement::Evaluate { .. } => Ok(()),
        Statement::Marker { pragma, .. } => push_marker(pragma, sites, alloc),
        Statement::If { then, .. } => push_statement(then, variables, sites, alloc),
        Statement::IfElse {
            then,
            otherwise,
            ..
        } => {
            push_statement(then, variables, sites, alloc)?;
            push_statement(otherwise, variables, sites, alloc)
        }
        Statement::While {
            number,
            bound,
            body,
            at,
            ..
        } => {
            push_loop(*number, bound, *at, sites, alloc)?;
            push_statement(body, variables, sites, alloc)
        }
        Statement::Do {
            number,
            bound,
            body,
            at,
            ..
        } => {
            push_loop(*number, bound, *at, sites, alloc)?;
            push_statement(body, variables, sites, alloc)
        }
        Statement::For {
            number,
            bound,
            start,
            body,
            at,
            ..
        } => {
            push_loop(*number, bound, *at, sites, alloc)?;
            push_start(start, variables, sites)?;
            push_statement(body, variables, sites, alloc)
        }
        Statement::Switch { items, .. } => {
            push_items(items, variables, sites, alloc)?;
            Ok(())
        }
        Statement::Break { .. } => Ok(()),
        Statement::Continue { .. } => Ok(()),
        Statement::Return { .. } => Ok(()),
    }
}

#[cycle(statements)]
fn push_item(
    item: &Item,
    variables: &[Variable],
    sites: &mut Vec<Site>,
    alloc: Global,
) -> Result<(), AllocError>
    ensures { OnOk result (sites.new.items ≡ sites.old.items ++ item_sites variables.now item.now) }
{
    match item {
        Item::Declaration(declaration) => push_declaration(declaration, variables, sites),
        Item::Statement(statement) => push_statement(statement, variables, sites, alloc),
        Item::Restriction(pragma) => push_restriction(pragma, sites, alloc),
        Item::Label(_) => Ok(()),
    }
}

#[cycle(statements)]
fn push_items(
    items: &[Item],
    variables: &[Variable],
    sites: &mut Vec<Site>,
    alloc: Global,
) -> Result<(), AllocError>
    ensures { OnOk result (sites.new.items ≡ sites.old.items ++ items_sites variables.now (items_of items.now)) }
{
    for item in items {
        push_item(item, variables, sites, alloc)?;
    }
    Ok(())
}

fn push_definition(
    function: &Function,
    variables: &[Variable],
    sites: &mut Vec<Site>,
    alloc: Global,
) -> Result<(), AllocError>
    ensures { OnOk result (sites.new.items ≡ sites.old.items ++ function_sites variables.now (Some (function_of function.now))) }
{
    push_function(function.name, sites)?;
    push_items(&function.body, variables, sites, alloc)
}

fn push_external(
    external: &External,
    program: &Program,
    sites: &mut Vec<Site>,
    alloc: Global,
) -> Result<(), AllocError>
    ensures { OnOk result (sites.new.items ≡ sites.old.items ++ external_sites (program_of program.now) (external_of external.now)) }
{
    match external {
        External::Restriction(pragma) => push_restriction(pragma, sites, alloc),
        External::Declaration(declaration) => {
            push_declaration(declaration, &program.variables, sites)
        }
        External::Function(number) => {
            let functions = program.functions.as_slice();
            let index = number.0 as usize;
            if index >= functions.len() {
                return Ok(());
            }
            push_definition(&functions[index], &program.variables, sites, alloc)?;
            Ok(())
        }
    }
}

fn push_externals(
    externals: &[External],
    program: &Program,
    sites: &mut Vec<Site>,
    alloc: Global,
) -> Result<(), AllocError>
    ensures { OnOk result (sites.new.items ≡ sites.old.items ++ externals_sites (program_of program.now) (map external_of externals.now)) }
{
    for external in externals {
        push_external(external, program, sites, alloc)?;
    }
    Ok(())
}

/// The sites of a program, in source order.
pub fn sites_of(program: &Program, alloc: Global) -> Result<Vec<Site>, AllocError>
    ensures { IfOk result (λ sites. sites.items ≡ sites_of (program_of program.now)) }
{
    let mut sites = Vec::new(alloc);
    push_externals(&program.items, program, &mut sites, alloc)?;
    Ok(sites)
}
