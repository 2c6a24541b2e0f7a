// The form of a counting loop, part by part.
ghost use Rattle.std.specs.Prelude.{◌≡◌, ◌≤◌, ◌^◌, IfSome, Some, map, nat_lt, slice_get};
ghost use Rattle.c_tree.specs.Named.{map_option};
ghost use Rattle.types_tree.specs.View.{declaration_of, expr_of, initial_of, object_of, place_of, start_of, statement_of};
ghost use Rattle.facts_loops.specs.Counting.{adds, assigned_object, assigned_word, compared, counter_of, counting, declared_object, declared_word, first_word, goes, initial_word, int_constant, is_converted, is_counter, is_limit, is_local, is_scalar, limit_by, limit_of, number_of, on_some, only, only_if, positive, reads, same_object, scalar_of, set_object, step_of, stepped_by, steps_up, word_of};

use super::changing::statement_changes;
use super::turns::{bounds_by, is_up, turns};
use c_tree::expression::PostfixOperator;
use facts_definitions::Bounds;
use facts_loops::Limit;
use facts_most::{is_constant, leaves, word};
use types_tree::declaration::{Declaration, Initial, Object};
use types_tree::expression::{Expr, Place};
use types_tree::statement::{ForStart, Statement};
use types_tree::variable::{Duration, Extent, Variable};
use types_value::{Kind, Operator};

/// A word has 32 bits by its type.
fn fitted(word: u32) -> Option<u32>
    ensures { result ≡ only_if (nat_lt word (2 ^ 32)) (Some word) }
{
    Some(word)
}

fn is_converted(expr: &Expr) -> bool
    ensures { result ≡ is_converted (expr_of expr.now) }
{
    match expr {
        Expr::Number { .. } => false,
        Expr::Character { .. } => false,
        Expr::Read(_) => false,
        Expr::Array { .. } => false,
        Expr::Paren { .. } => false,
        Expr::Call { .. } => false,
        Expr::Step { .. } => false,
        Expr::Sign { .. } => false,
        Expr::Cast { .. } => false,
        Expr::Convert { .. } => true,
        Expr::Operate { .. } => false,
        Expr::And { .. } => false,
        Expr::Or { .. } => false,
        Expr::Comma { .. } => false,
        Expr::Conditional { .. } => false,
        Expr::Assign { .. } => false,
        Expr::Update { .. } => false,
    }
}

/// Where an int is wanted: the word of a constant of type int whose value is defined.
fn int_constant(expr: &Expr) -> Option<u32>
    ensures { result ≡ int_constant (expr_of expr.now) }
{
    if is_converted(expr) {
        return None;
    }
    if !is_constant(expr) {
        return None;
    }
    match word(expr) {
        None => None,
        Some(word) => fitted(word),
    }
}

/// A name alone, without brackets.
fn scalar_of(place: &Place) -> Option<u32>
    ensures { result ≡ scalar_of (place_of place.now) }
{
    match place {
        Place::Scalar { object, .. } => Some(object.0),
        Place::Element { .. } => None,
        Place::Paren { .. } => None,
    }
}

fn same_object(own: Option<u32>, object: u32) -> bool
    ensures { result ≡ same_object own object }
{
    match own {
        None => false,
        Some(own) => own == object,
    }
}

fn is_scalar(object: u32, place: &Place) -> bool
    ensures { result ≡ is_scalar object (place_of place.now) }
{
    same_object(scalar_of(place), object)
}

fn assigned_object(expr: &Expr) -> Option<u32>
    ensures { result ≡ assigned_object (expr_of expr.now) }
{
    match expr {
        Expr::Assign { target, .. } => scalar_of(target),
        _ => None,
    }
}

fn assigned_word(expr: &Expr) -> Option<u32>
    ensures { result ≡ assigned_word (expr_of expr.now) }
{
    match expr {
        Expr::Assign { value, .. } => int_constant(value),
        _ => None,
    }
}

fn initial_word(initial: &Initial) -> Option<u32>
    ensures { result ≡ initial_word (initial_of initial.now) }
{
    match initial {
        Initial::Absent => None,
        Initial::Value(value) => int_constant(value),
        Initial::List { .. } => None,
    }
}

/// The number of the only object of a list.
fn only_number(objects: &[Object]) -> Option<u32>
    ensures { result ≡ on_some (only (map object_of objects.now)) number_of }
{
    if objects.len() != 1 {
        return None;
    }
    Some(objects[0].object.0)
}

/// The initial word of the only object of a list.
fn only_word(objects: &[Object]) -> Option<u32>
    ensures { result ≡ on_some (only (map object_of objects.now)) word_of }
{
    if objects.len() != 1 {
        return None;
    }
    initial_word(&objects[0].initial)
}

fn declared_object(declaration: &Declaration) -> Option<u32>
    ensures { result ≡ declared_object (declaration_of declaration.now) }
{
    match declaration {
        Declaration::Objects { objects, .. } => only_number(objects),
        Declaration::Prototype { .. } => None,
    }
}

fn declared_word(declaration: &Declaration) -> Option<u32>
    ensures { result ≡ declared_word (declaration_of declaration.now) }
{
    match declaration {
        Declaration::Objects { objects, .. } => only_word(objects),
        Declaration::Prototype { .. } => None,
    }
}

/// The object that the first part of a `for` sets.
fn set_object(start: &ForStart) -> Option<u32>
    ensures { result ≡ set_object (start_of start.now) }
{
    match start {
        ForStart::Absent => None,
        ForStart::Expression(value) => assigned_object(value),
        ForStart::Declaration(declaration) => declared_object(declaration),
    }
}

/// The constant that it sets it to.
fn first_word(start: &ForStart) -> Option<u32>
    ensures { result ≡ first_word (start_of start.now) }
{
    match start {
        ForStart::Absent => None,
        ForStart::Expression(value) => assigned_word(value),
        ForStart::Declaration(declaration) => declared_word(declaration),
    }
}

fn is_local(duration: Duration, extent: Extent) -> bool
    ensures { result ≡ is_local duration extent }
{
    match duration {
        Duration::Static => false,
        Duration::Automatic => match extent {
            Extent::Scalar => true,
            Extent::Array(_) => false,
            Extent::Parameter => false,
        },
    }
}

/// Whether an object is a local scalar or a scalar parameter, of type int.
fn is_counter(variables: &[Variable], object: u32) -> bool
    ensures { result ≡ is_counter (slice_get variables.now object) }
{
    match variables.get(object as usize) {
        None => false,
        Some(variable) => {
            if !is_local(variable.duration, variable.extent) {
                return false;
            }
            variable.kind.is(Kind::Int)
        }
    }
}

/// The object that counts.
fn counter_of(variables: &[Variable], start: &ForStart, body: &Statement) -> Option<u32>
    ensures { result ≡ counter_of variables.now (start_of start.now) (statement_of body.now) }
{
    let Some(object) = set_object(start) else {
        return None;
    };
    if !is_counter(variables, object) {
        return None;
    }
    if statement_changes(object, body) {
        return None;
    }
    Some(object)
}

fn reads(object: u32, expr: &Expr) -> bool
    ensures { result ≡ reads object (expr_of expr.now) }
{
    match expr {
        Expr::Read(place) => is_scalar(object, place),
        _ => false,
    }
}

fn is_limit(operator: Operator) -> bool
    ensures { result ≡ is_limit operator }
{
    match operator {
        Operator::Less => true,
        Operator::LessEqual => true,
        Operator::Greater => true,
        Operator::GreaterEqual => true,
        _ => false,
    }
}

/// The comparison of the object with a constant.
fn compared(object: u32, expr: &Expr) -> Option<Limit>
    ensures { result ≡ compared object (expr_of expr.now) }
{
    match expr {
        Expr::Operate {
            operator,
            kind,
            left,
            right,
            ..
        } => {
            if !is_limit(*operator) {
                return None;
            }
            if !kind.is(Kind::Int) {
                return None;
            }
            if !reads(object, left) {
                return None;
            }
            limit_by(*operator, int_constant(right))
        }
        _ => None,
    }
}

fn limit_by(operator: Operator, word: Option<u32>) -> Option<Limit>
    ensures { result ≡ on_some word (limit_by operator) }
{
    match word {
        None => None,
        Some(word) => Some(Limit { operator, word }),
    }
}

fn limit_of(object: u32, test: &Option<Expr>) -> Option<Limit>
    ensures { result ≡ limit_of object (map_option expr_of test.now) }
{
    match test {
        None => None,
        Some(test) => compared(object, test),
    }
}

fn steps_up(operator: PostfixOperator) -> bool
    ensures { result ≡ steps_up operator }
{
    match operator {
        PostfixOperator::Increment => true,
        PostfixOperator::Decrement => false,
    }
}

fn goes(own: bool, up: bool) -> bool
    ensures { result ≡ goes own up }
{
    if own { up } else { !up }
}

fn adds(operator: Operator, up: bool) -> bool
    ensures { result ≡ adds operator up }
{
    match operator {
        Operator::Add => up,
        Operator::Subtract => !up,
        _ => false,
    }
}

/// A number of type int that is at least 1.
fn positive(word: Option<u32>) -> Option<u32>
    ensures same { result ≡ on_some word positive }
    ensures some { IfSome result (λ n. 1 ≤ n) }
{
    let Some(word) = word else {
        return None;
    };
    if 1 <= word && word < 2_147_483_648 {
        return Some(word);
    }
    None
}

/// By how much an expression steps the object in this direction.
fn stepped_by(object: u32, up: bool, expr: &Expr) -> Option<u32>
    ensures same { result ≡ stepped_by object up (expr_of expr.now) }
    ensures some { IfSome result (λ n. 1 ≤ n) }
{
    match expr {
        Expr::Step {
            operator,
            kind,
            target,
            ..
        } => {
            if !is_scalar(object, target) {
                return None;
            }
            if !kind.is(Kind::Int) {
                return None;
            }
            if !goes(steps_up(*operator), up) {
                return None;
            }
            Some(1)
        }
        Expr::Update {
            operator,
            kind,
            to,
            target,
            value,
            ..
        } => {
            if !is_scalar(object, target) {
                return None;
            }
            if !kind.is(Kind::Int) {
                return None;
            }
            if !to.is(Kind::Int) {
                return None;
            }
            if !adds(*operator, up) {
                return None;
            }
            positive(int_constant(value))
        }
        _ => None,
    }
}

fn step_of(object: u32, up: bool, step: &Option<Expr>) -> Option<u32>
    ensures same { result ≡ step_of object up (map_option expr_of step.now) }
    ensures some { IfSome result (λ n. 1 ≤ n) }
{
    match step {
        None => None,
        Some(step) => stepped_by(object, up, step),
    }
}

/// The bounds that the form of a `for` gives, where it is a counting loop.
pub fn counting(
    variables: &[Variable],
    start: &ForStart,
    test: &Option<Expr>,
    step: &Option<Expr>,
    body: &Statement,
) -> Option<Bounds>
    ensures { result ≡ counting variables.now (start_of start.now) (map_option expr_of test.now) (map_option expr_of step.now) (statement_of body.now) }
{
    let Some(object) = counter_of(variables, start, body) else {
        return None;
    };
    let Some(first) = first_word(start) else {
        return None;
    };
    let Some(limit) = limit_of(object, test) else {
        return None;
    };
    let Some(by) = step_of(object, is_up(limit.operator), step) else {
        return None;
    };
    bounds_by(leaves(true, body), turns(first, limit, by))
}
