// Whether a part of a program changes a scalar object by its name.
ghost use Rattle.std.specs.Prelude.{◌≡◌, ◌||◌, map};
ghost use Rattle.c_tree.specs.Named.{map_option};
ghost use Rattle.types_tree.specs.View.{declaration_of, expr_of, exprs_of, initial_of, items_of, object_of, place_of, start_of, statement_of};
ghost use Rattle.facts_loops.specs.Changes.{declaration_changes, expr_changes, exprs_changes, initial_changes, items_changes, object_changes, objects_changes, option_changes, place_changes, start_changes, statement_changes, target_changes};
ghost use Rattle.bound_finder.specs.Items.{item_changes};

use types_tree::declaration::{Declaration, Initial, Object};
use types_tree::expression::{Expr, Place};
use types_tree::statement::{ForStart, Item, Statement};

fn either(one: bool, other: bool) -> bool
    ensures { result ≡ (one || other) }
{
    one || other
}

/// Of a place that is assigned or stepped.
#[cycle(exprs)]
fn target_changes(object: u32, place: &Place) -> bool
    ensures { result ≡ target_changes object (place_of place.now) }
{
    match place {
        Place::Scalar { object: own, .. } => own.0 == object,
        Place::Element { index, .. } => expr_changes(object, index),
        Place::Paren { inner, .. } => target_changes(object, inner),
    }
}

/// Of a place that is read.
#[cycle(exprs)]
fn place_changes(object: u32, place: &Place) -> bool
    ensures { result ≡ place_changes object (place_of place.now) }
{
    match place {
        Place::Scalar { .. } => false,
        Place::Element { index, .. } => expr_changes(object, index),
        Place::Paren { inner, .. } => place_changes(object, inner),
    }
}

#[cycle(exprs)]
fn expr_changes(object: u32, expr: &Expr) -> bool
    ensures { result ≡ expr_changes object (expr_of expr.now) }
{
    match expr {
        Expr::Number { .. } => false,
        Expr::Character { .. } => false,
        Expr::Read(place) => place_changes(object, place),
        Expr::Array { .. } => false,
        Expr::Paren { inner, .. } => expr_changes(object, inner),
        Expr::Call { arguments, .. } => {
            let changed = exprs_changes(object, arguments);
            changed
        }
        Expr::Step { target, .. } => target_changes(object, target),
        Expr::Sign { operand, .. } => expr_changes(object, operand),
        Expr::Cast { operand, .. } => expr_changes(object, operand),
        Expr::Convert { operand, .. } => expr_changes(object, operand),
        Expr::Operate { left, right, .. } => either(
            expr_changes(object, left),
            expr_changes(object, right),
        ),
        Expr::And { left, right, .. } => either(
            expr_changes(object, left),
            expr_changes(object, right),
        ),
        Expr::Or { left, right, .. } => either(
            expr_changes(object, left),
            expr_changes(object, right),
        ),
        Expr::Comma { left, right, .. } => either(
            expr_changes(object, left),
            expr_changes(object, right),
        ),
        Expr::Conditional {
            test,
            then,
            otherwise,
            ..
        } => {
            if expr_changes(object, test) {
                return true;
            }
            either(expr_changes(object, then), expr_changes(object, otherwise))
        }
        Expr::Assign { target, value, .. } => either(
            target_changes(object, target),
            expr_changes(object, value),
        ),
        Expr::Update { target, value, .. } => either(
            target_changes(object, target),
            expr_changes(object, value),
        ),
    }
}

#[cycle(exprs)]
fn exprs_changes(object: u32, exprs: &[Expr]) -> bool
    ensures { result ≡ exprs_changes object (exprs_of exprs.now) }
{
    for expr in exprs {
        if expr_changes(object, expr) {
            return true;
        }
    }
    false
}

fn option_changes(object: u32, expr: &Option<Expr>) -> bool
    ensures { result ≡ option_changes object (map_option expr_of expr.now) }
{
    match expr {
        None => false,
        Some(expr) => expr_changes(object, expr),
    }
}

fn initial_changes(object: u32, initial: &Initial) -> bool
    ensures { result ≡ initial_changes object (initial_of initial.now) }
{
    match initial {
        Initial::Absent => false,
        Initial::Value(value) => expr_changes(object, value),
        Initial::List { values, .. } => exprs_changes(object, values),
    }
}

fn object_changes(object: u32, declared: &Object) -> bool
    ensures { result ≡ object_changes object (object_of declared.now) }
{
    if declared.object.0 == object {
        return true;
    }
    initial_changes(object, &declared.initial)
}

fn objects_changes(object: u32, objects: &[Object]) -> bool
    ensures { result ≡ objects_changes object (map object_of objects.now) }
{
    for declared in objects {
        if object_changes(object, declared) {
            return true;
        }
    }
    false
}

fn declaration_changes(object: u32, declaration: &Declaration) -> bool
    ensures { result ≡ declaration_changes object (declaration_of declaration.now) }
{
    match declaration {
        Declaration::Objects { objects, .. } => objects_changes(object, objects),
        Declaration::Prototype { .. } => false,
    }
}

fn start_changes(object: u32, start: &ForStart) -> bool
    ensures { result ≡ start_changes object (start_of start.now) }
{
    match start {
        ForStart::Absent => false,
        ForStart::Expression(value) => expr_changes(object, value),
        ForStart::Declaration(declaration) => declaration_changes(object, declaration),
    }
}

/// Whether a statement changes a scalar object by its name.
#[cycle(statements)]
pub fn statement_changes(object: u32, statement: &Statement) -> bool
    ensures { result ≡ statement_changes object (statement_of statement.now) }
{
    match statement {
        Statement::Block { items, .. } => {
            let changed = items_changes(object, items);
            changed
        }
        Statement::Empty { .. } => false,
        Statement::Evaluate { value, .. } => expr_changes(object, value),
        Statement::Marker { .. } => false,
        Statement::If { test, then, .. } => {
            if expr_changes(object, test) {
                return true;
            }
            statement_changes(object, then)
        }
        Statement::IfElse {
            test,
            then,
            otherwise,
            ..
        } => {
            if expr_changes(object, test) {
                return true;
            }
            if statement_changes(object, then) {
                return true;
            }
            statement_changes(object, otherwise)
        }
        Statement::While { test, body, .. } => {
            if expr_changes(object, test) {
                return true;
            }
            statement_changes(object, body)
        }
        Statement::Do { body, test, .. } => {
            if statement_changes(object, body) {
                return true;
            }
            expr_changes(object, test)
        }
        Statement::For {
            start,
            test,
            step,
            body,
            ..
        } => {
            if start_changes(object, start) {
                return true;
            }
            if option_changes(object, test) {
                return true;
            }
            if option_changes(object, step) {
                return true;
            }
            statement_changes(object, body)
        }
        Statement::Switch { test, items, .. } => {
            let changed = either(expr_changes(object, test), items_changes(object, items));
            changed
        }
        Statement::Break { .. } => false,
        Statement::Continue { .. } => false,
        Statement::Return { value, .. } => option_changes(object, value),
    }
}

#[cycle(statements)]
fn item_changes(object: u32, item: &Item) -> bool
    ensures { result ≡ item_changes object item.now }
{
    match item {
        Item::Declaration(declaration) => declaration_changes(object, declaration),
        Item::Statement(statement) => statement_changes(object, statement),
        Item::Restriction(_) => false,
        Item::Label(_) => false,
    }
}

#[cycle(statements)]
fn items_changes(object: u32, items: &[Item]) -> bool
    ensures { result ≡ items_changes object (items_of items.now) }
{
    for item in items {
        if item_changes(object, item) {
            return true;
        }
    }
    false
}
