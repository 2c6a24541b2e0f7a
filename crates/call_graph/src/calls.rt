// The calls in expressions and statements.
ghost use Rattle.std.specs.Prelude.{◌≡◌, ◌++◌, ◌∷◌, [], OnOk, map};
ghost use Rattle.types_calls.specs.Calls.{called, declaration_calls, expr_calls, exprs_calls, initial_calls, items_calls, label_calls, object_calls, objects_calls, option_calls, params_calls, place_calls, shape_calls, start_calls, statement_calls};
ghost use Rattle.call_graph.specs.Items.{item_calls};
ghost use Rattle.c_tree.specs.Named.{map_option};
ghost use Rattle.types_tree.specs.View.{declaration_of, expr_of, exprs_of, initial_of, items_of, label_of, object_of, param_of, place_of, shape_of, start_of, statement_of};

use std::alloc::AllocError;
use types_tree::declaration::{Declaration, Initial, Object, Param, Shape};
use types_tree::expression::{Callee, Expr, Place};
use types_tree::statement::{ForStart, Item, Label, Statement};

fn add(function: u32, calls: &mut Vec<usize>) -> Result<(), AllocError>
    ensures { OnOk result (calls.new.items ≡ calls.old.items ++ function ∷ []) }
{
    calls.push(function as usize)?;
    Ok(())
}

fn add_callee(callee: Callee, calls: &mut Vec<usize>) -> Result<(), AllocError>
    ensures { OnOk result (calls.new.items ≡ calls.old.items ++ called callee) }
{
    match callee {
        Callee::Getchar => Ok(()),
        Callee::Putchar => Ok(()),
        Callee::Function(function) => add(function.0, calls),
    }
}

#[cycle(exprs)]
fn add_place(place: &Place, calls: &mut Vec<usize>) -> Result<(), AllocError>
    ensures { OnOk result (calls.new.items ≡ calls.old.items ++ place_calls (place_of place.now)) }
{
    match place {
        Place::Scalar { .. } => Ok(()),
        Place::Element { index, .. } => add_expr(index, calls),
        Place::Paren { inner, .. } => add_place(inner, calls),
    }
}

/// The calls in an expression, behind others.
#[cycle(exprs)]
pub fn add_expr(expr: &Expr, calls: &mut Vec<usize>) -> Result<(), AllocError>
    ensures { OnOk result (calls.new.items ≡ calls.old.items ++ expr_calls (expr_of expr.now)) }
{
    match expr {
        Expr::Number { .. } => Ok(()),
        Expr::Character { .. } => Ok(()),
        Expr::Read(place) => add_place(place, calls),
        Expr::Array { .. } => Ok(()),
        Expr::Paren { inner, .. } => add_expr(inner, calls),
        Expr::Call {
            callee,
            arguments,
            ..
        } => {
            add_callee(*callee, calls)?;
            add_exprs(arguments, calls)?;
            Ok(())
        }
        Expr::Step { target, .. } => add_place(target, calls),
        Expr::Sign { operand, .. } => add_expr(operand, calls),
        Expr::Cast { operand, .. } => add_expr(operand, calls),
        Expr::Convert { operand, .. } => add_expr(operand, calls),
        Expr::Operate { left, right, .. } => {
            add_expr(left, calls)?;
            add_expr(right, calls)
        }
        Expr::And { left, right, .. } => {
            add_expr(left, calls)?;
            add_expr(right, calls)
        }
        Expr::Or { left, right, .. } => {
            add_expr(left, calls)?;
            add_expr(right, calls)
        }
        Expr::Comma { left, right, .. } => {
            add_expr(left, calls)?;
            add_expr(right, calls)
        }
        Expr::Conditional {
            test,
            then,
            otherwise,
            ..
        } => {
            add_expr(test, calls)?;
            add_expr(then, calls)?;
            add_expr(otherwise, calls)
        }
        Expr::Assign { target, value, .. } => {
            add_place(target, calls)?;
            add_expr(value, calls)
        }
        Expr::Update { target, value, .. } => {
            add_place(target, calls)?;
            add_expr(value, calls)
        }
    }
}

#[cycle(exprs)]
fn add_exprs(exprs: &[Expr], calls: &mut Vec<usize>) -> Result<(), AllocError>
    ensures { OnOk result (calls.new.items ≡ calls.old.items ++ exprs_calls (exprs_of exprs.now)) }
{
    for expr in exprs {
        add_expr(expr, calls)?;
    }
    Ok(())
}

fn add_option(expr: &Option<Expr>, calls: &mut Vec<usize>) -> Result<(), AllocError>
    ensures { OnOk result (calls.new.items ≡ calls.old.items ++ option_calls (map_option expr_of expr.now)) }
{
    match expr {
        None => Ok(()),
        Some(expr) => add_expr(expr, calls),
    }
}

fn add_shape(shape: &Shape, calls: &mut Vec<usize>) -> Result<(), AllocError>
    ensures { OnOk result (calls.new.items ≡ calls.old.items ++ shape_calls (shape_of shape.now)) }
{
    match shape {
        Shape::Scalar => Ok(()),
        Shape::Unsized => Ok(()),
        Shape::Sized(size) => add_expr(size, calls),
    }
}

fn add_initial(initial: &Initial, calls: &mut Vec<usize>) -> Result<(), AllocError>
    ensures { OnOk result (calls.new.items ≡ calls.old.items ++ initial_calls (initial_of initial.now)) }
{
    match initial {
        Initial::Absent => Ok(()),
        Initial::Value(value) => add_expr(value, calls),
        Initial::List { values, .. } => add_exprs(values, calls),
    }
}

fn add_object(object: &Object, calls: &mut Vec<usize>) -> Result<(), AllocError>
    ensures { OnOk result (calls.new.items ≡ calls.old.items ++ object_calls (object_of object.now)) }
{
    add_shape(&object.shape, calls)?;
    add_initial(&object.initial, calls)
}

fn add_objects(objects: &[Object], calls: &mut Vec<usize>) -> Result<(), AllocError>
    ensures { OnOk result (calls.new.items ≡ calls.old.items ++ objects_calls (map object_of objects.now)) }
{
    for object in objects {
        add_object(object, calls)?;
    }
    Ok(())
}

/// The calls in the sizes of parameters, behind others.
pub fn add_params(params: &[Param], calls: &mut Vec<usize>) -> Result<(), AllocError>
    ensures { OnOk result (calls.new.items ≡ calls.old.items ++ params_calls (map param_of params.now)) }
{
    for param in params {
        add_shape(&param.shape, calls)?;
    }
    Ok(())
}

fn add_declaration(declaration: &Declaration, calls: &mut Vec<usize>) -> Result<(), AllocError>
    ensures { OnOk result (calls.new.items ≡ calls.old.items ++ declaration_calls (declaration_of declaration.now)) }
{
    match declaration {
        Declaration::Objects { objects, .. } => add_objects(objects, calls),
        Declaration::Prototype { params, .. } => add_params(params, calls),
    }
}

fn add_label(label: &Label, calls: &mut Vec<usize>) -> Result<(), AllocError>
    ensures { OnOk result (calls.new.items ≡ calls.old.items ++ label_calls (label_of label.now)) }
{
    match label {
        Label::Case { value, .. } => add_expr(value, calls),
        Label::Default { .. } => Ok(()),
    }
}

fn add_start(start: &ForStart, calls: &mut Vec<usize>) -> Result<(), AllocError>
    ensures { OnOk result (calls.new.items ≡ calls.old.items ++ start_calls (start_of start.now)) }
{
    match start {
        ForStart::Absent => Ok(()),
        ForStart::Expression(value) => add_expr(value, calls),
        ForStart::Declaration(declaration) => add_declaration(declaration, calls),
    }
}

/// The head of a `for`.
fn add_head(
    start: &ForStart,
    test: &Option<Expr>,
    step: &Option<Expr>,
    calls: &mut Vec<usize>,
) -> Result<(), AllocError>
    ensures { OnOk result (calls.new.items ≡ calls.old.items ++ (start_calls (start_of start.now) ++ (option_calls (map_option expr_of test.now) ++ option_calls (map_option expr_of step.now)))) }
{
    add_start(start, calls)?;
    add_option(test, calls)?;
    add_option(step, calls)
}

#[cycle(statements)]
fn add_statement(statement: &Statement, calls: &mut Vec<usize>) -> Result<(), AllocError>
    ensures { OnOk result (calls.new.items ≡ calls.old.items ++ statement_calls (statement_of statement.now)) }
{
    match statement {
        Statement::Block { items, .. } => {
            add_items(items, calls)?;
            Ok(())
        }
        Statement::Empty { .. } => Ok(()),
        Statement::Evaluate { value, .. } => add_expr(value, calls),
        Statement::Marker { .. } => Ok(()),
        Statement::If { test, then, .. } => {
            add_expr(test, calls)?;
            add_statement(then, calls)
        }
        Statement::IfElse {
            test,
            then,
            otherwise,
            ..
        } => {
            add_expr(test, calls)?;
            add_statement(then, calls)?;
            add_statement(otherwise, calls)
        }
        Statement::While { test, body, .. } => {
            add_expr(test, calls)?;
            add_statement(body, calls)
        }
        Statement::Do { test, body, .. } => {
            add_statement(body, calls)?;
            add_expr(test, calls)
        }
        Statement::For {
            start,
            test,
            step,
            body,
            ..
        } => {
            add_head(start, test, step, calls)?;
            add_statement(body, calls)
        }
        Statement::Switch { test, items, .. } => {
            add_expr(test, calls)?;
            add_items(items, calls)?;
            Ok(())
        }
        Statement::Break { .. } => Ok(()),
        Statement::Continue { .. } => Ok(()),
        Statement::Return { value, .. } => add_option(value, calls),
    }
}

#[cycle(statements)]
fn add_item(item: &Item, calls: &mut Vec<usize>) -> Result<(), AllocError>
    ensures { OnOk result (calls.new.items ≡ calls.old.items ++ item_calls item.now) }
{
    match item {
        Item::Declaration(declaration) => add_declaration(declaration, calls),
        Item::Statement(statement) => add_statement(statement, calls),
        Item::Restriction(_) => Ok(()),
        Item::Label(label) => add_label(label, calls),
    }
}

/// The calls in the items of a block, behind others.
#[cycle(statements)]
pub fn add_items(items: &[Item], calls: &mut Vec<usize>) -> Result<(), AllocError>
    ensures { OnOk result (calls.new.items ≡ calls.old.items ++ items_calls (items_of items.now)) }
{
    for item in items {
        add_item(item, calls)?;
    }
    Ok(())
}
