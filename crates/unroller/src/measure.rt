// How large statements are, and whether they have loops.
ghost use Rattle.std.specs.Prelude.{◌≡◌, ◌<◌, ◌^◌, map, max, sum_by};
ghost use Rattle.high_ir.specs.Size.{depth, depth_all, expr_depth, expr_operations, greatest};
ghost use Rattle.high_ir.specs.View.{expr_of, statement_of, statements_of};
ghost use Rattle.high_unrolled.specs.Factor.{has_loop, has_loop_any};
ghost use Rattle.high_unrolled.specs.Programs.{busy, is_idle};

use high_ir::expression::Expr;
use high_ir::object::Base;
use high_ir::statement::Statement;

fn expr_operations(expr: &Expr) -> u32
    requires { expr_operations (expr_of expr.now) < 2 ^ 32 }
    ensures { result ≡ expr_operations (expr_of expr.now) }
{
    match expr {
        Expr::Constant(_) => 0,
        Expr::Variable(_) => 0,
        Expr::Element { index, .. } => expr_operations(index) + 1,
        Expr::Unary { operand, .. } => expr_operations(operand) + 1,
        Expr::Binary { left, right, .. } => expr_operations(left) + expr_operations(right) + 1,
    }
}

fn exprs_operations(exprs: &[Expr]) -> u32
    requires { sum_by (λ e. expr_operations (expr_of e)) exprs.now < 2 ^ 32 }
    ensures { result ≡ sum_by (λ e. expr_operations (expr_of e)) exprs.now }
{
    let mut sum = 0;
    for expr in exprs {
        sum += expr_operations(expr);
    }
    sum
}

/// Whether a loop stands within a statement.
#[cycle(loops)]
pub fn has_loop(statement: &Statement) -> bool
    ensures { result ≡ has_loop (statement_of statement.now) }
{
    match statement {
        Statement::Set { .. } => false,
        Statement::Put { .. } => false,
        Statement::Get { .. } => false,
        Statement::Keep { .. } => false,
        Statement::Mark { .. } => false,
        Statement::Seq(parts) => has_loop_any(parts),
        Statement::If { first, other, .. } => {
            if has_loop(first) {
                return true;
            }
            has_loop(other)
        }
        Statement::Loop { .. } => true,
        Statement::Block(body) => has_loop(body),
        Statement::Leave { .. } => false,
        Statement::Call { .. } => false,
        Statement::Return { .. } => false,
    }
}

#[cycle(loops)]
fn has_loop_any(parts: &[Statement]) -> bool
    ensures { result ≡ has_loop_any (statements_of parts.now) }
{
    for part in parts {
        if has_loop(part) {
            return true;
        }
    }
    false
}

/// Whether a loop is an innermost one that makes no start.
fn is_idle(most: u32, body: &Statement) -> bool
    ensures { result ≡ is_idle most (statement_of body.now) }
{
    most == 0 && !has_loop(body)
}

/// The operations of a statement, of which the innermost loops that make no start are two each.
#[cycle(statements)]
pub fn busy(statement: &Statement) -> u32
    requires { busy (statement_of statement.now) < 2 ^ 32 }
    ensures { result ≡ busy (statement_of statement.now) }
{
    match statement {
        Statement::Set { value, .. } => expr_operations(value) + 1,
        Statement::Put { value } => expr_operations(value) + 1,
        Statement::Get { .. } => 1,
        Statement::Keep { index, value, .. } => expr_operations(index) + expr_operations(value) + 1,
        Statement::Mark { .. } => 1,
        Statement::Seq(parts) => busy_all(parts) + 1,
        Statement::If { test, first, other } => {
            expr_operations(test) + busy(first) + busy(other) + 1
        }
        Statement::Loop { max, body, .. } => {
            if is_idle(*max, body) {
                return 2;
            }
            busy(body) + 1
        }
        Statement::Block(body) => busy(body) + 1,
        Statement::Leave { .. } => 1,
        Statement::Call { values, arrays, .. } => {
            exprs_operations(values) + values.len() as u32 + arrays.len() as u32 + 1
        }
        Statement::Return { value } => expr_operations(value) + 1,
    }
}

#[cycle(statements)]
fn busy_all(parts: &[Statement]) -> u32
    requires { sum_by (λ s. busy (statement_of s)) parts.now < 2 ^ 32 }
    ensures { result ≡ sum_by (λ s. busy (statement_of s)) parts.now }
{
    let mut sum = 0;
    for part in parts {
        sum += busy(part);
    }
    sum
}

fn greater(a: u32, b: u32) -> u32
    ensures { result ≡ max a b }
{
    if a < b { b } else { a }
}

fn expr_depth(expr: &Expr) -> u32
    requires { expr_depth (expr_of expr.now) < 2 ^ 32 }
    ensures { result ≡ expr_depth (expr_of expr.now) }
{
    match expr {
        Expr::Constant(_) => 1,
        Expr::Variable(_) => 1,
        Expr::Element { index, .. } => expr_depth(index) + 1,
        Expr::Unary { operand, .. } => expr_depth(operand) + 1,
        Expr::Binary { left, right, .. } => greater(expr_depth(left), expr_depth(right)) + 1,
    }
}

fn exprs_depth(exprs: &[Expr]) -> u32
    requires { greatest expr_depth (map expr_of exprs.now) < 2 ^ 32 }
    ensures { result ≡ greatest expr_depth (map expr_of exprs.now) }
{
    let mut deepest = 0;
    for expr in exprs {
        let depth = expr_depth(expr);
        deepest = greater(deepest, depth);
    }
    deepest
}

/// How deep arrays are that are passed.
#[tactic(auto, using(crate::proofs::Rows::none_deep, crate::proofs::Rows::one_deep))]
fn arrays_depth(arrays: &[Base]) -> u32
    ensures { result ≡ greatest (λ b. 1) arrays.now }
{
    if arrays.is_empty() { 0 } else { 1 }
}

/// How deep a statement is: 1 for a leaf, else one more than its deepest part.
#[cycle(depths)]
pub fn depth(statement: &Statement) -> u32
    requires { depth (statement_of statement.now) < 2 ^ 32 }
    ensures { result ≡ depth (statement_of statement.now) }
{
    match statement {
        Statement::Set { value, .. } => expr_depth(value) + 1,
        Statement::Put { value } => expr_depth(value) + 1,
        Statement::Get { .. } => 1,
        Statement::Keep { index, value, .. } => greater(expr_depth(index), expr_depth(value)) + 1,
        Statement::Mark { .. } => 1,
        Statement::Seq(parts) => depth_all(parts) + 1,
        Statement::If { test, first, other } => {
            greater(expr_depth(test), greater(depth(first), depth(other))) + 1
        }
        Statement::Loop { body, .. } => depth(body) + 1,
        Statement::Block(body) => depth(body) + 1,
        Statement::Leave { .. } => 1,
        Statement::Call { values, arrays, .. } => {
            greater(exprs_depth(values), arrays_depth(arrays)) + 1
        }
        Statement::Return { value } => expr_depth(value) + 1,
    }
}

#[cycle(depths)]
fn depth_all(parts: &[Statement]) -> u32
    requires { depth_all (statements_of parts.now) < 2 ^ 32 }
    ensures { result ≡ depth_all (statements_of parts.now) }
{
    let mut deepest = 0;
    for part in parts {
        let deep = depth(part);
        deepest = greater(deepest, deep);
    }
    deepest
}
