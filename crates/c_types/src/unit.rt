// The walk over a unit.
ghost use Rattle.std.specs.Prelude.{◌≡◌, ◌++◌, ◌∷◌, [], map, IfOk, OnOk};
ghost use Rattle.c_tree.specs.Tree.{Nothing};
ghost use Rattle.c_tree.specs.View.{param_of as source_param, row_of};
ghost use Rattle.types_rules.specs.DeclarationRules.{after_list, function_rule, redefines, routine};
ghost use Rattle.types_rules.specs.Scope.{Around, with_definition, with_routine};
ghost use Rattle.types_rules.specs.Typing.{typed_params};
ghost use Rattle.types_tree.specs.View.{param_of};
ghost use Rattle.c_types.specs.Unit.{AreExternals, AreParts, IsExternal, IsFunction, definition_fault};

use c_tree::declaration::Param;
use c_tree::expression::{NameId, Specifier};
use c_tree::external::{External as Source, Function as SourceFunction};
use std::alloc::{AllocError, Global};
use types_declaration::{
    check_declaration, check_params, copy_specifiers, declare_params, either, fault_at, is_no_list,
    redeclares, routine, rule_or, when,
};
use types_expression::first_of;
use types_rules::{Fault, Rule, are_wrong, kind_spelled};
use types_scope::{Table, narrow};
use types_statement::{CheckedItems, Within, check_body, copy_pragma};
use types_tree::declaration::Param as TypedParam;
use types_tree::expression::{FunctionId, ObjectId};
use types_tree::external::{External, Function};

/// What was found in the parameters of a definition.
#[derive(Drop)]
pub struct CheckedList {
    pub params: Vec<TypedParam>,
    pub fault: Option<Fault>,
}

/// What was found in a function.
#[derive(Drop)]
pub struct CheckedFunction {
    pub function: Function,
    pub fault: Option<Fault>,
}

/// What was found in a part of a unit.
#[derive(Drop)]
pub struct CheckedExternal {
    pub item: External,
    pub fault: Option<Fault>,
}

/// What was found in the parts of a unit.
#[derive(Drop)]
pub struct CheckedExternals {
    pub items: Vec<External>,
    pub functions: Vec<Function>,
    pub fault: Option<Fault>,
}

/// Whether a function is defined already, or has the name of one that is there beforehand.
fn redefines(name: NameId, table: &Table) -> bool
    ensures { result ≡ redefines name.0 table.now }
{
    let known = table.known();
    let given = either(name.0 == known.getchar(), name.0 == known.putchar());
    either(table.is_defined(name.0), given)
}

/// Declares a function that is defined here.
fn define(
    specifiers: &[Specifier],
    name: NameId,
    params: &[Param],
    table: &mut Table,
    alloc: Global,
) -> Result<Option<Rule>, AllocError>
    ensures rule { IfOk result (λ rule. rule ≡ function_rule specifiers.now name.0 (row_of source_param Nothing params.now) table.old) }
    ensures after { OnOk result (table.new ≡ with_definition name.0 (with_routine name.0 (routine specifiers.now (row_of source_param Nothing params.now)) table.old)) }
{
    let routine = routine(specifiers, params, alloc)?;
    let wrong = are_wrong(true, false, specifiers);
    let redeclared = either(redeclares(name.0, &routine, table), redefines(name, table));
    table.introduce(name.0, routine)?;
    table.define(name.0)?;
    Ok(rule_or(
        when(wrong, Rule::Specifiers),
        when(redeclared, Rule::Redeclared),
    ))
}

/// The first fault in the parameters of a definition, which are declared.
fn declare_list(
    params: &[Param],
    table: &mut Table,
    alloc: Global,
) -> Result<Option<Fault>, AllocError>
    ensures fault { IfOk result (λ fault. fault ≡ definition_fault (row_of source_param Nothing params.now) table.old) }
    ensures after { OnOk result (table.new ≡ after_list (row_of source_param Nothing params.now) table.old) }
{
    if is_no_list(params) {
        return Ok(None);
    }
    let fault = declare_params(params, table, alloc)?;
    Ok(fault)
}

/// Checks the parameters of a definition, and declares them.
fn check_list(source: &[Param], table: &mut Table, alloc: Global) -> Result<CheckedList, AllocError>
    ensures params { IfOk result (λ r. map param_of r.params.items ≡ typed_params (row_of source_param Nothing source.now) table.old) }
    ensures fault { IfOk result (λ r. r.fault ≡ definition_fault (row_of source_param Nothing source.now) table.old) }
    ensures after { OnOk result (table.new ≡ after_list (row_of source_param Nothing source.now) table.old) }
{
    let inner = check_params(source, table, alloc)?;
    match declare_list(source, table, alloc) {
        Ok(fault) => Ok(CheckedList {
            params: inner.params,
            fault,
        }),
        Err(memory) => {
            drop(inner);
            Err(memory)
        }
    }
}

/// A function, once its parts are walked.
fn make_function(
    source: &SourceFunction,
    rule: Option<Rule>,
    first: u32,
    list: CheckedList,
    body: CheckedItems,
    alloc: Global,
) -> Result<CheckedFunction, AllocError>
    ensures { IfOk result (λ r. (a b : Around) → AreParts rule first list body source.now a b → IsFunction r source.now a b) }
{
    match copy_specifiers(&source.specifiers, alloc) {
        Ok(specifiers) => {
            let own = fault_at(rule, source.at);
            Ok(CheckedFunction {
                function: Function {
                    specifiers,
                    name: source.name,
                    name_at: source.name_at,
                    params: list.params,
                    first: ObjectId(first),
                    body: body.items,
                    body_at: source.body_at,
                    at: source.at,
                },
                fault: first_of(own, first_of(list.fault, body.fault)),
            })
        }
        Err(memory) => {
            drop(list);
            drop(body);
            Err(memory)
        }
    }
}

/// Checks the definition of a function.
fn check_function(
    source: &SourceFunction,
    table: &mut Table,
    alloc: Global,
) -> Result<CheckedFunction, AllocError>
    ensures { IfOk result (λ r. IsFunction r source.now table.old table.new) }
{
    let first = narrow(table.objects())?;
    let rule = define(
        &source.specifiers,
        source.name,
        &source.params,
        table,
        alloc,
    )?;
    table.enter(alloc)?;
    let list = check_list(&source.params, table, alloc)?;
    let within = Within::function(kind_spelled(&source.specifiers));
    match check_body(&source.body, within, table, alloc) {
        Ok(body) => {
            table.leave(alloc);
            make_function(source, rule, first, list, body, alloc)
        }
        Err(memory) => {
            drop(list);
            Err(memory)
        }
    }
}

fn keep(functions: &mut Vec<Function>, function: Function) -> Result<(), AllocError>
    ensures { OnOk result (functions.new.items ≡ functions.old.items ++ function ∷ []) }
{
    functions.push(function)?;
    Ok(())
}

/// Checks a part of a unit. A function that it defines is put behind the others.
fn check_external(
    source: &Source,
    functions: &mut Vec<Function>,
    table: &mut Table,
    alloc: Global,
) -> Result<CheckedExternal, AllocError>
    ensures { IfOk result (λ r. IsExternal r source.now functions.old.items functions.new.items table.old table.new) }
{
    match source {
        Source::Restriction(pragma) => {
            let pragma = copy_pragma(pragma, alloc)?;
            Ok(CheckedExternal {
                item: External::Restriction(pragma),
                fault: None,
            })
        }
        Source::Declaration(declaration) => {
            let inner = check_declaration(declaration, table, alloc)?;
            Ok(CheckedExternal {
                item: External::Declaration(inner.declaration),
                fault: inner.fault,
            })
        }
        Source::Function(source) => {
            let number = FunctionId(narrow(table.functions())?);
            let inner = check_function(source, table, alloc)?;
            keep(functions, inner.function)?;
            Ok(CheckedExternal {
                item: External::Function(number),
                fault: inner.fault,
            })
        }
    }
}

fn push(items: &mut Vec<External>, item: External) -> Result<(), AllocError>
    ensures { OnOk result (items.new.items ≡ items.old.items ++ item ∷ []) }
{
    items.push(item)?;
    Ok(())
}

/// Checks the parts of a unit.
pub fn check_externals(
    given: &[Source],
    table: &mut Table,
    alloc: Global,
) -> Result<CheckedExternals, AllocError>
    ensures { IfOk result (λ r. AreExternals r given.now table.old table.new) }
{
    let mut items = Vec::new(alloc);
    let mut functions = Vec::new(alloc);
    let mut fault = None;
    for source in given {
        let inner = check_external(source, &mut functions, table, alloc)?;
        fault = first_of(fault, inner.fault);
        push(&mut items, inner.item)?;
    }
    Ok(CheckedExternals {
        items,
        functions,
        fault,
    })
}
