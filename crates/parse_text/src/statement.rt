// Statements and what stands in braces.
use crate::declaration::declaration;
use crate::expression::expression;
use crate::printer::Printer;
use c_tree::expression::Expr;
use c_tree::pragma::Pragma;
use c_tree::statement::{ForHead, ForStart, Item, Label, Statement};
use std::alloc::AllocError;

fn optional(printer: &mut Printer, value: &Option<Expr>) -> Result<(), AllocError> {
    match value {
        None => printer.word("-"),
        Some(value) => expression(printer, value),
    }
}

pub fn restriction(printer: &mut Printer, restriction: &Pragma) -> Result<(), AllocError> {
    printer.pragma("restriction", restriction)
}

fn label(printer: &mut Printer, label: &Label) -> Result<(), AllocError> {
    match label {
        Label::Case { value, at } => {
            printer.open("case", *at)?;
            expression(printer, value)?;
            printer.close()
        }
        Label::Default { at } => printer.leaf("default", *at),
    }
}

fn start(printer: &mut Printer, start: &ForStart) -> Result<(), AllocError> {
    match start {
        ForStart::Absent => printer.word("-"),
        ForStart::Expression(value) => expression(printer, value),
        ForStart::Declaration(one) => declaration(printer, one),
    }
}

fn for_head(printer: &mut Printer, head: &ForHead) -> Result<(), AllocError> {
    start(printer, &head.start)?;
    optional(printer, &head.test)?;
    optional(printer, &head.step)
}

/// A node that begins with an expression.
fn open_with(printer: &mut Printer, word: &str, value: &Expr, at: u32) -> Result<(), AllocError> {
    printer.open(word, at)?;
    expression(printer, value)
}

/// A loop, with its bound where it has one.
fn open_loop(
    printer: &mut Printer,
    word: &str,
    bound: &Option<Pragma>,
    at: u32,
) -> Result<(), AllocError> {
    printer.open(word, at)?;
    match bound {
        None => Ok(()),
        Some(bound) => printer.pragma("bound", bound),
    }
}

/// What stands in a statement before the statements and items that are its parts.
fn begin(printer: &mut Printer, one: &Statement) -> Result<(), AllocError> {
    match one {
        Statement::Block { at, .. } => printer.open("block", *at),
        Statement::Empty { at } => printer.open("empty", *at),
        Statement::Expression { value, at } => open_with(printer, "eval", value, *at),
        Statement::Marker(pragma) => printer.open_pragma("marker", pragma),
        Statement::If { test, at, .. } => open_with(printer, "if", test, *at),
        Statement::IfElse { test, at, .. } => open_with(printer, "ifelse", test, *at),
        Statement::While {
            bound,
            test,
            at,
            ..
        } => {
            open_loop(printer, "while", bound, *at)?;
            expression(printer, test)
        }
        Statement::Do { bound, at, .. } => open_loop(printer, "do", bound, *at),
        Statement::For {
            bound,
            head,
            at,
            ..
        } => {
            open_loop(printer, "for", bound, *at)?;
            for_head(printer, head)
        }
        Statement::Switch { test, at, .. } => open_with(printer, "switch", test, *at),
        Statement::Break { at } => printer.open("break", *at),
        Statement::Continue { at } => printer.open("continue", *at),
        Statement::Return { value: None, at } => printer.open("return", *at),
        Statement::Return {
            value: Some(value),
            at,
        } => open_with(printer, "return", value, *at),
    }
}

#[cycle(statements)]
fn statement(printer: &mut Printer, one: &Statement) -> Result<(), AllocError> {
    begin(printer, one)?;
    match one {
        Statement::Block { items, .. } | Statement::Switch { items, .. } => {
            for one in items {
                item(printer, one)?;
            }
        }
        Statement::If { then: body, .. }
        | Statement::While { body, .. }
        | Statement::For { body, .. } => statement(printer, body)?,
        Statement::IfElse {
            then,
            otherwise,
            ..
        } => {
            statement(printer, then)?;
            statement(printer, otherwise)?;
        }
        Statement::Do { body, test, .. } => {
            statement(printer, body)?;
            expression(printer, test)?;
        }
        Statement::Empty { .. }
        | Statement::Expression { .. }
        | Statement::Marker(_)
        | Statement::Break { .. }
        | Statement::Continue { .. }
        | Statement::Return { .. } => {}
    }
    printer.close()
}

#[cycle(statements)]
pub fn item(printer: &mut Printer, one: &Item) -> Result<(), AllocError> {
    match one {
        Item::Declaration(one) => declaration(printer, one),
        Item::Statement(one) => statement(printer, one),
        Item::Restriction(one) => restriction(printer, one),
        Item::Label(one) => label(printer, one),
    }
}
