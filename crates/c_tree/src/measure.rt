ghost use Rattle.std.specs.Prelude.{◌≡◌, ◌<◌};
ghost use Rattle.c_tree.specs.Named.{map_option};
ghost use Rattle.c_tree.specs.Size.{Fits, beside, empty, leaf, over, size, size_all, size_declaration, size_external, size_initial, size_items, size_label, size_object, size_optional, size_param, size_row, size_shape, size_start, size_statement};
ghost use Rattle.c_tree.specs.Tree.{NoExpr, NoItem, Nothing};
ghost use Rattle.c_tree.specs.View.{declaration_of, expr_of, exprs_of, external_of, function_of, initial_of, item_size, items_of, label_of, object_of, param_of, row_of, shape_of, start_of, statement_of};

use super::declaration::{Declaration, Initial, Object, Param, Shape};
use super::expression::Expr;
use super::external::{External, Function};
use super::size::Size;
use super::statement::{ForStart, Item, Label, Statement};

/// Over one expression.
#[cycle(exprs)]
fn measure_expr(expr: &Expr) -> Size
    requires { Fits (size (expr_of expr.now)) }
    ensures { result ≡ size (expr_of expr.now) }
{
    match expr {
        Expr::Number { .. } => Size::leaf(),
        Expr::Character { .. } => Size::leaf(),
        Expr::Name { .. } => Size::leaf(),
        Expr::Paren { inner, .. } => measure_expr(inner).over(),
        Expr::Index { index, .. } => measure_expr(index).over(),
        Expr::Call { arguments, .. } => measure_exprs(arguments).over(),
        Expr::Postfix { operand, .. } => measure_expr(operand).over(),
        Expr::Prefix { operand, .. } => measure_expr(operand).over(),
        Expr::Cast { operand, .. } => measure_expr(operand).over(),
        Expr::Binary { left, right, .. } => measure_expr(left).beside(measure_expr(right)).over(),
        Expr::Conditional {
            test,
            then,
            otherwise,
            ..
        } => {
            let head = measure_expr(test).beside(measure_expr(then));
            head.beside(measure_expr(otherwise)).over()
        }
        Expr::Assign { target, value, .. } => measure_expr(target)
            .beside(measure_expr(value))
            .over(),
    }
}

#[cycle(exprs)]
fn measure_exprs(exprs: &[Expr]) -> Size
    requires { Fits (size_all (exprs_of NoExpr exprs.now)) }
    ensures { result ≡ size_all (exprs_of NoExpr exprs.now) }
{
    let mut sum = Size::empty();
    for expr in exprs {
        sum = sum.beside(measure_expr(expr));
    }
    sum
}

fn measure_optional(value: &Option<Expr>) -> Size
    requires { Fits (size_optional (map_option expr_of value.now)) }
    ensures { result ≡ size_optional (map_option expr_of value.now) }
{
    match value {
        None => Size::empty(),
        Some(expr) => measure_expr(expr),
    }
}

fn measure_shape(shape: &Shape) -> Size
    requires { Fits (size_shape (shape_of shape.now)) }
    ensures { result ≡ size_shape (shape_of shape.now) }
{
    match shape {
        Shape::Scalar => Size::empty(),
        Shape::Unsized => Size::empty(),
        Shape::Sized(size) => measure_expr(size),
    }
}

fn measure_initial(initial: &Initial) -> Size
    requires { Fits (size_initial (initial_of initial.now)) }
    ensures { result ≡ size_initial (initial_of initial.now) }
{
    match initial {
        Initial::Absent => Size::empty(),
        Initial::Value(value) => measure_expr(value),
        Initial::List { values, .. } => measure_exprs(values),
    }
}

fn measure_object(object: &Object) -> Size
    requires { Fits (size_object (object_of object.now)) }
    ensures { result ≡ size_object (object_of object.now) }
{
    measure_shape(&object.shape)
        .beside(measure_initial(&object.initial))
        .over()
}

fn measure_objects(objects: &[Object]) -> Size
    requires { Fits (size_row size_object (row_of object_of Nothing objects.now)) }
    ensures { result ≡ size_row size_object (row_of object_of Nothing objects.now) }
{
    let mut sum = Size::empty();
    for object in objects {
        sum = sum.beside(measure_object(object));
    }
    sum
}

fn measure_param(param: &Param) -> Size
    requires { Fits (size_param (param_of param.now)) }
    ensures { result ≡ size_param (param_of param.now) }
{
    measure_shape(&param.shape).over()
}

fn measure_params(params: &[Param]) -> Size
    requires { Fits (size_row size_param (row_of param_of Nothing params.now)) }
    ensures { result ≡ size_row size_param (row_of param_of Nothing params.now) }
{
    let mut sum = Size::empty();
    for param in params {
        sum = sum.beside(measure_param(param));
    }
    sum
}

fn measure_declaration(declaration: &Declaration) -> Size
    requires { Fits (size_declaration (declaration_of declaration.now)) }
    ensures { result ≡ size_declaration (declaration_of declaration.now) }
{
    match declaration {
        Declaration::Objects { objects, .. } => measure_objects(objects).over(),
        Declaration::Prototype { params, .. } => measure_params(params).over(),
    }
}

fn measure_label(label: &Label) -> Size
    requires { Fits (size_label (label_of label.now)) }
    ensures { result ≡ size_label (label_of label.now) }
{
    match label {
        Label::Case { value, .. } => measure_expr(value).over(),
        Label::Default { .. } => Size::leaf(),
    }
}

fn measure_start(start: &ForStart) -> Size
    requires { Fits (size_start (start_of start.now)) }
    ensures { result ≡ size_start (start_of start.now) }
{
    match start {
        ForStart::Absent => Size::empty(),
        ForStart::Expression(value) => measure_expr(value),
        ForStart::Declaration(declaration) => measure_declaration(declaration),
    }
}

#[cycle(statements)]
fn measure_statement(statement: &Statement) -> Size
    requires { Fits (size_statement (statement_of statement.now)) }
    ensures { result ≡ size_statement (statement_of statement.now) }
{
    match statement {
        Statement::Block { items, .. } => measure_items(items).over(),
        Statement::Empty { .. } => Size::leaf(),
        Statement::Expression { value, .. } => measure_expr(value).over(),
        Statement::Marker(_) => Size::leaf(),
        Statement::If { test, then, .. } => measure_expr(test)
            .beside(measure_statement(then))
            .over(),
        Statement::IfElse {
            test,
            then,
            otherwise,
            ..
        } => {
            let head = measure_expr(test).beside(measure_statement(then));
            head.beside(measure_statement(otherwise)).over()
        }
        Statement::While { test, body, .. } => measure_expr(test)
            .beside(measure_statement(body))
            .over(),
        Statement::Do { body, test, .. } => measure_statement(body)
            .beside(measure_expr(test))
            .over(),
        Statement::For { head, body, .. } => {
            let first = measure_start(&head.start).beside(measure_optional(&head.test));
            let head = first.beside(measure_optional(&head.step));
            head.beside(measure_statement(body)).over()
        }
        Statement::Switch { test, items, .. } => measure_expr(test)
            .beside(measure_items(items))
            .over(),
        Statement::Break { .. } => Size::leaf(),
        Statement::Continue { .. } => Size::leaf(),
        Statement::Return { value, .. } => measure_optional(value).over(),
    }
}

#[cycle(statements)]
fn measure_item(item: &Item) -> Size
    requires { Fits (item_size item.now) }
    ensures { result ≡ item_size item.now }
{
    match item {
        Item::Declaration(declaration) => measure_declaration(declaration),
        Item::Statement(statement) => measure_statement(statement),
        Item::Restriction(_) => Size::leaf(),
        Item::Label(label) => measure_label(label),
    }
}

#[cycle(statements)]
fn measure_items(items: &[Item]) -> Size
    requires { Fits (size_items (items_of NoItem items.now)) }
    ensures { result ≡ size_items (items_of NoItem items.now) }
{
    let mut sum = Size::empty();
    for item in items {
        sum = sum.beside(measure_item(item));
    }
    sum
}

fn measure_function(function: &Function) -> Size
    requires { Fits (size_external (function_of function.now)) }
    ensures { result ≡ size_external (function_of function.now) }
{
    measure_params(&function.params)
        .beside(measure_items(&function.body).over())
        .over()
}

fn measure_external(external: &External) -> Size
    requires { Fits (size_external (external_of external.now)) }
    ensures { result ≡ size_external (external_of external.now) }
{
    match external {
        External::Restriction(_) => Size::leaf(),
        External::Declaration(declaration) => measure_declaration(declaration),
        External::Function(function) => measure_function(function),
    }
}

/// Over all that stands at file level, without the unit's own node.
pub fn measure_externals(externals: &[External]) -> Size
    requires { Fits (size_row size_external (row_of external_of Nothing externals.now)) }
    ensures { result ≡ size_row size_external (row_of external_of Nothing externals.now) }
{
    let mut sum = Size::empty();
    for external in externals {
        sum = sum.beside(measure_external(external));
    }
    sum
}
