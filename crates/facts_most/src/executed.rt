// How often the nodes of expressions and statements are executed at most.
ghost use Rattle.std.specs.Prelude.{◌≡◌, ◌+◌, ◌*◌, ℕ};
ghost use Rattle.facts_definitions.specs.Most.{cut, expr_most, exprs_most, items_most, option_most, place_most, statement_most};
ghost use Rattle.c_tree.specs.Named.{map_option};
ghost use Rattle.types_tree.specs.View.{expr_of, exprs_of, items_of, place_of, statement_of};
ghost use Rattle.facts_most.specs.Items.{calls_by, item_most};

use super::constant::{is_always, is_always_or_absent};
use super::declared::{declaration_most, label_most, start_most};
use super::sums::{add, bounds_at, call_most, multiply, times};
use facts_definitions::Bounds;
use types_tree::expression::{Expr, Place};
use types_tree::statement::{Item, Statement};

#[cycle(exprs)]
fn place_most(place: &Place, calls: &[u64]) -> u64
    ensures { result ≡ cut (place_most (calls_by calls.now) (place_of place.now)) }
{
    match place {
        Place::Scalar { .. } => 1,
        Place::Element { index, .. } => add(1, expr_most(index, calls)),
        Place::Paren { inner, .. } => add(1, place_most(inner, calls)),
    }
}

/// Of an expression, where a call of a function comes to its number in `calls`.
#[cycle(exprs)]
pub fn expr_most(expr: &Expr, calls: &[u64]) -> u64
    ensures { result ≡ cut (expr_most (calls_by calls.now) (expr_of expr.now)) }
{
    match expr {
        Expr::Number { .. } => 1,
        Expr::Character { .. } => 1,
        Expr::Read(place) => place_most(place, calls),
        Expr::Array { .. } => 1,
        Expr::Paren { inner, .. } => add(1, expr_most(inner, calls)),
        Expr::Call {
            callee,
            arguments,
            ..
        } => {
            let given = exprs_most(arguments, calls);
            add(1, add(given, call_most(*callee, calls)))
        }
        Expr::Step { target, .. } => add(1, place_most(target, calls)),
        Expr::Sign { operand, .. } => add(1, expr_most(operand, calls)),
        Expr::Cast { operand, .. } => add(1, expr_most(operand, calls)),
        Expr::Convert { operand, .. } => expr_most(operand, calls),
        Expr::Operate { left, right, .. } => {
            add(1, add(expr_most(left, calls), expr_most(right, calls)))
        }
        Expr::And { left, right, .. } => {
            add(1, add(expr_most(left, calls), expr_most(right, calls)))
        }
        Expr::Or { left, right, .. } => {
            add(1, add(expr_most(left, calls), expr_most(right, calls)))
        }
        Expr::Comma { left, right, .. } => {
            add(1, add(expr_most(left, calls), expr_most(right, calls)))
        }
        Expr::Conditional {
            test,
            then,
            otherwise,
            ..
        } => {
            let parts = add(expr_most(then, calls), expr_most(otherwise, calls));
            add(1, add(expr_most(test, calls), parts))
        }
        Expr::Assign { target, value, .. } => {
            add(1, add(place_most(target, calls), expr_most(value, calls)))
        }
        Expr::Update { target, value, .. } => {
            add(1, add(place_most(target, calls), expr_most(value, calls)))
        }
    }
}

#[cycle(exprs)]
pub fn exprs_most(exprs: &[Expr], calls: &[u64]) -> u64
    ensures { result ≡ cut (exprs_most (calls_by calls.now) (exprs_of exprs.now)) }
{
    let mut most = 0;
    for expr in exprs {
        most = add(most, expr_most(expr, calls));
    }
    most
}

fn option_most(expr: &Option<Expr>, calls: &[u64]) -> u64
    ensures { result ≡ cut (option_most (calls_by calls.now) (map_option expr_of expr.now)) }
{
    match expr {
        None => 0,
        Some(expr) => expr_most(expr, calls),
    }
}

/// Of a turn of a `for`, whose body comes to `body`.
fn turn_most(test: &Option<Expr>, step: &Option<Expr>, body: u64, calls: &[u64]) -> u64
    ensures { (b : ℕ) → body ≡ cut b → result ≡ cut (option_most (calls_by calls.now) (map_option expr_of test.now) + (option_most (calls_by calls.now) (map_option expr_of step.now) + b)) }
{
    add(
        option_most(test, calls),
        add(option_most(step, calls), body),
    )
}

/// Of a `for`, whose start and turn come to so much.
fn for_most(start: u64, times: u64, turn: u64) -> u64
    requires { cut times ≡ times }
    ensures { (s t : ℕ) → start ≡ cut s → turn ≡ cut t → result ≡ cut (1 + (s + times * t)) }
{
    add(1, add(start, multiply(times, turn)))
}

/// Of a statement, where the loops have these bounds by their numbers.
#[cycle(statements)]
fn statement_most(statement: &Statement, bounds: &[Bounds], calls: &[u64]) -> u64
    ensures { result ≡ cut (statement_most bounds.now (calls_by calls.now) (statement_of statement.now)) }
{
    match statement {
        Statement::Block { items, .. } => add(1, items_most(items, bounds, calls)),
        Statement::Empty { .. } => 1,
        Statement::Evaluate { value, .. } => add(1, expr_most(value, calls)),
        Statement::Marker { .. } => 1,
        Statement::If { test, then, .. } => add(
            1,
            add(expr_most(test, calls), statement_most(then, bounds, calls)),
        ),
        Statement::IfElse {
            test,
            then,
            otherwise,
            ..
        } => {
            let first = statement_most(then, bounds, calls);
            let second = statement_most(otherwise, bounds, calls);
            add(1, add(expr_most(test, calls), add(first, second)))
        }
        Statement::While {
            number,
            test,
            body,
            ..
        } => {
            let start = add(expr_most(test, calls), statement_most(body, bounds, calls));
            let times = times(is_always(test), bounds_at(bounds, number.0));
            add(1, multiply(times, start))
        }
        Statement::Do {
            number,
            test,
            body,
            ..
        } => {
            let start = add(expr_most(test, calls), statement_most(body, bounds, calls));
            let times = times(true, bounds_at(bounds, number.0));
            add(1, multiply(times, start))
        }
        Statement::For {
            number,
            start,
            test,
            step,
            body,
            ..
        } => {
            let body = statement_most(body, bounds, calls);
            let turn = turn_most(test, step, body, calls);
            let times = times(is_always_or_absent(test), bounds_at(bounds, number.0));
            for_most(start_most(start, bounds, calls), times, turn)
        }
        Statement::Switch { test, items, .. } => add(
            1,
            add(expr_most(test, calls), items_most(items, bounds, calls)),
        ),
        Statement::Break { .. } => 1,
        Statement::Continue { .. } => 1,
        Statement::Return { value, .. } => add(1, option_most(value, calls)),
    }
}

#[cycle(statements)]
fn item_most(item: &Item, bounds: &[Bounds], calls: &[u64]) -> u64
    ensures { result ≡ cut (item_most bounds.now (calls_by calls.now) item.now) }
{
    match item {
        Item::Declaration(declaration) => declaration_most(declaration, bounds, calls),
        Item::Statement(statement) => statement_most(statement, bounds, calls),
        Item::Restriction(_) => 1,
        Item::Label(label) => label_most(label, calls),
    }
}

/// Of the items of a block.
#[cycle(statements)]
pub fn items_most(items: &[Item], bounds: &[Bounds], calls: &[u64]) -> u64
    ensures { result ≡ cut (items_most bounds.now (calls_by calls.now) (items_of items.now)) }
{
    let mut most = 0;
    for item in items {
        most = add(most, item_most(item, bounds, calls));
    }
    most
}
