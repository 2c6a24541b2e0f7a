// The walk over a statement.
ghost use Rattle.std.specs.Prelude.{IfOk};
ghost use Rattle.c_tree.specs.Tree.{NoItem};
ghost use Rattle.c_tree.specs.View.{items_of as source_items, statement_of as source_statement};
ghost use Rattle.types_statement.specs.Checked.{AreItems, AreTyped, IsItem, IsStatement};
ghost use Rattle.types_statement.specs.Within.{within_said};

use super::build::{
    check_evaluate, check_marker, check_return, end_do, made, make_block, make_for, make_if,
    make_if_else, make_switch, make_while,
};
use super::checked::{CheckedItem, CheckedItems, CheckedStatement, Within};
use super::heads::{begin_for, begin_loop, begin_switch, begin_while};
use super::labels::{Labels, check_label};
use super::parts::{check_test, copy_pragma, own_fault, push};
use c_tree::statement::{Item as SourceItem, Statement as Source};
use std::alloc::{AllocError, Global};
use types_declaration::check_declaration;
use types_expression::first_of;
use types_rules::Rule;
use types_scope::Table;
use types_tree::statement::{Item, Statement};

/// Checks a statement.
#[cycle(statements)]
fn check_statement(
    statement: &Source,
    within: Within,
    table: &mut Table,
    alloc: Global,
) -> Result<CheckedStatement, AllocError>
    ensures { IfOk result (λ r. IsStatement r (source_statement statement.now) (within_said within) table.old table.new) }
{
    match statement {
        Source::Block { items, at } => {
            table.enter(alloc)?;
            let inner = check_items(items, within, table, alloc)?;
            table.leave(alloc);
            make_block(inner, *at, alloc)
        }
        Source::Empty { at } => made(Statement::Empty { at: *at }, None, alloc),
        Source::Expression { value, at } => check_evaluate(value, within, *at, table, alloc),
        Source::Marker(pragma) => check_marker(pragma, within, table, alloc),
        Source::If { test, then, at } => {
            let test = check_test(test, *at, table, alloc)?;
            match check_statement(then, within, table, alloc) {
                Ok(first) => make_if(test, first, *at, alloc),
                Err(memory) => {
                    test.let_go();
                    Err(memory)
                }
            }
        }
        Source::IfElse {
            test,
            then,
            otherwise,
            at,
        } => {
            let test = check_test(test, *at, table, alloc)?;
            match check_statement(then, within, table, alloc) {
                Ok(first) => match check_statement(otherwise, within, table, alloc) {
                    Ok(second) => make_if_else(test, first, second, *at, alloc),
                    Err(memory) => {
                        test.let_go();
                        first.let_go();
                        Err(memory)
                    }
                },
                Err(memory) => {
                    test.let_go();
                    Err(memory)
                }
            }
        }
        Source::While {
            bound,
            test,
            body,
            at,
        } => {
            let head = begin_while(bound, test, *at, table, alloc)?;
            match check_statement(body, within.in_loop(), table, alloc) {
                Ok(body) => make_while(head, body, alloc),
                Err(memory) => {
                    head.let_go();
                    Err(memory)
                }
            }
        }
        Source::Do {
            bound,
            body,
            test,
            at,
        } => {
            let begun = begin_loop(bound, *at, table, alloc)?;
            match check_statement(body, within.in_loop(), table, alloc) {
                Ok(body) => end_do(begun, body, test, table, alloc),
                Err(memory) => {
                    begun.let_go();
                    Err(memory)
                }
            }
        }
        Source::For {
            bound,
            head,
            body,
            at,
        } => {
            let head = begin_for(bound, head, *at, table, alloc)?;
            match check_statement(body, within.in_loop(), table, alloc) {
                Ok(body) => {
                    table.leave(alloc);
                    make_for(head, body, alloc)
                }
                Err(memory) => {
                    head.let_go();
                    Err(memory)
                }
            }
        }
        Source::Switch { test, items, at } => {
            let choice = begin_switch(test, *at, table, alloc)?;
            match check_items(items, within.in_switch(), table, alloc) {
                Ok(inner) => {
                    table.leave(alloc);
                    make_switch(choice, inner, *at, alloc)
                }
                Err(memory) => {
                    choice.let_go();
                    Err(memory)
                }
            }
        }
        Source::Break { at } => {
            let own = own_fault(false, !within.has_exit, false, *at);
            made(Statement::Break { at: *at }, own, alloc)
        }
        Source::Continue { at } => {
            let own = own_fault(false, !within.in_loop, false, *at);
            made(Statement::Continue { at: *at }, own, alloc)
        }
        Source::Return { value, at } => check_return(value, within, *at, table, alloc),
    }
}

/// Checks an item at which this rule fails by itself, where it is a label.
#[cycle(statements)]
fn check_item(
    item: &SourceItem,
    rule: Option<Rule>,
    within: Within,
    table: &mut Table,
    alloc: Global,
) -> Result<CheckedItem, AllocError>
    ensures { IfOk result (λ r. IsItem r item.now rule (within_said within) table.old table.new) }
{
    match item {
        SourceItem::Declaration(declaration) => {
            let inner = check_declaration(declaration, table, alloc)?;
            Ok(CheckedItem {
                item: Item::Declaration(inner.declaration),
                fault: inner.fault,
            })
        }
        SourceItem::Statement(statement) => {
            let inner = check_statement(statement, within, table, alloc)?;
            Ok(CheckedItem {
                item: Item::Statement(Box::into_inner(inner.statement)),
                fault: inner.fault,
            })
        }
        SourceItem::Restriction(pragma) => {
            let pragma = copy_pragma(pragma, alloc)?;
            Ok(CheckedItem {
                item: Item::Restriction(pragma),
                fault: None,
            })
        }
        SourceItem::Label(label) => {
            let inner = check_label(label, rule, table, alloc)?;
            Ok(CheckedItem {
                item: Item::Label(inner.label),
                fault: inner.fault,
            })
        }
    }
}

/// Checks what stands in braces.
#[cycle(statements)]
fn check_items(
    given: &[SourceItem],
    within: Within,
    table: &mut Table,
    alloc: Global,
) -> Result<CheckedItems, AllocError>
    ensures { IfOk result (λ r. AreItems r (source_items NoItem given.now) (within_said within) table.old table.new) }
{
    let mut items = Vec::new(alloc);
    let mut labels = Labels::new(alloc);
    let mut fault = None;
    for source in given {
        let rule = labels.see(source)?;
        let inner = check_item(source, rule, within, table, alloc)?;
        fault = first_of(fault, inner.fault);
        push(&mut items, inner.item)?;
    }
    Ok(CheckedItems { items, fault })
}

/// The typed forms of the items of a function's body, and the first fault in them. What they declare is visible behind them.
pub fn check_body(
    given: &[SourceItem],
    within: Within,
    table: &mut Table,
    alloc: Global,
) -> Result<CheckedItems, AllocError>
    ensures { IfOk result (λ r. AreTyped r (source_items NoItem given.now) (within_said within) table.old table.new) }
{
    check_items(given, within, table, alloc)
}
