// How often the nodes of declarations are executed at most.
ghost use Rattle.std.specs.Prelude.{◌≡◌, map};
ghost use Rattle.facts_definitions.specs.Most.{cut, is_lone_void, is_void_alone, declaration_most, filling_most, initial_most, label_most, list_most, object_most, objects_most, param_most, params_most, shape_most, start_most};
ghost use Rattle.c_tree.specs.Named.{map_option};
ghost use Rattle.types_tree.specs.View.{declaration_of, initial_of, label_of, loop_of, object_of, param_of, shape_of, start_of};
ghost use Rattle.facts_most.specs.Items.{calls_by};

use super::executed::{expr_most, exprs_most};
use super::sums::{add, bounds_at};
use c_tree::expression::Specifier;
use facts_definitions::Bounds;
use types_tree::declaration::{Declaration, Initial, Object, Param, Shape};
use types_tree::statement::{ForStart, Label, LoopId};

fn shape_most(shape: &Shape, calls: &[u64]) -> u64
    ensures { result ≡ cut (shape_most (calls_by calls.now) (shape_of shape.now)) }
{
    match shape {
        Shape::Scalar => 0,
        Shape::Unsized => 0,
        Shape::Sized(size) => expr_most(size, calls),
    }
}

fn filling_most(filling: Option<LoopId>, bounds: &[Bounds]) -> u64
    ensures { result ≡ filling_most bounds.now (map_option loop_of filling) }
{
    match filling {
        None => 0,
        Some(number) => 2 * u64::from(bounds_at(bounds, number.0).max),
    }
}

fn initial_most(initial: &Initial, bounds: &[Bounds], calls: &[u64]) -> u64
    ensures { result ≡ cut (initial_most bounds.now (calls_by calls.now) (initial_of initial.now)) }
{
    match initial {
        Initial::Absent => 0,
        Initial::Value(value) => expr_most(value, calls),
        Initial::List {
            values,
            filling,
            ..
        } => add(exprs_most(values, calls), filling_most(*filling, bounds)),
    }
}

fn object_most(object: &Object, bounds: &[Bounds], calls: &[u64]) -> u64
    ensures { result ≡ cut (object_most bounds.now (calls_by calls.now) (object_of object.now)) }
{
    let initial = initial_most(&object.initial, bounds, calls);
    add(1, add(shape_most(&object.shape, calls), initial))
}

fn objects_most(objects: &[Object], bounds: &[Bounds], calls: &[u64]) -> u64
    ensures { result ≡ cut (objects_most bounds.now (calls_by calls.now) (map object_of objects.now)) }
{
    let mut most = 0;
    for object in objects {
        most = add(most, object_most(object, bounds, calls));
    }
    most
}

fn param_most(param: &Param, calls: &[u64]) -> u64
    ensures { result ≡ cut (param_most (calls_by calls.now) (param_of param.now)) }
{
    add(1, shape_most(&param.shape, calls))
}

fn params_most(params: &[Param], calls: &[u64]) -> u64
    ensures { result ≡ cut (params_most (calls_by calls.now) (map param_of params.now)) }
{
    let mut most = 0;
    for param in params {
        most = add(most, param_most(param, calls));
    }
    most
}

fn is_lone_void(param: &Param) -> bool
    ensures { result ≡ is_lone_void (param_of param.now) }
{
    if param.name.is_some() {
        return false;
    }
    match param.shape {
        Shape::Scalar => is_void_alone(&param.specifiers),
        Shape::Unsized => false,
        Shape::Sized(_) => false,
    }
}

fn is_void_alone(specifiers: &[Specifier]) -> bool
    ensures { result ≡ is_void_alone specifiers.now }
{
    if specifiers.len() != 1 {
        return false;
    }
    matches!(specifiers[0], Specifier::Void)
}

/// Of parameters; a lone unnamed `void` is none.
pub fn list_most(params: &[Param], calls: &[u64]) -> u64
    ensures { result ≡ cut (list_most (calls_by calls.now) (map param_of params.now)) }
{
    if params.len() != 1 {
        return params_most(params, calls);
    }
    if is_lone_void(&params[0]) {
        return 0;
    }
    params_most(params, calls)
}

pub fn declaration_most(declaration: &Declaration, bounds: &[Bounds], calls: &[u64]) -> u64
    ensures { result ≡ cut (declaration_most bounds.now (calls_by calls.now) (declaration_of declaration.now)) }
{
    match declaration {
        Declaration::Objects { objects, .. } => add(1, objects_most(objects, bounds, calls)),
        Declaration::Prototype { params, .. } => add(1, list_most(params, calls)),
    }
}

pub fn label_most(label: &Label, calls: &[u64]) -> u64
    ensures { result ≡ cut (label_most (calls_by calls.now) (label_of label.now)) }
{
    match label {
        Label::Case { value, .. } => add(1, expr_most(value, calls)),
        Label::Default { .. } => 1,
    }
}

pub fn start_most(start: &ForStart, bounds: &[Bounds], calls: &[u64]) -> u64
    ensures { result ≡ cut (start_most bounds.now (calls_by calls.now) (start_of start.now)) }
{
    match start {
        ForStart::Absent => 0,
        ForStart::Expression(value) => expr_most(value, calls),
        ForStart::Declaration(declaration) => declaration_most(declaration, bounds, calls),
    }
}
