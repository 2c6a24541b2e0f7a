// How large a program is.
ghost use Rattle.std.specs.Prelude.{◌≡◌, ◌+◌, ◌<◌, ◌^◌, length, sum_by};
ghost use Rattle.high_ir.specs.Programs.{program_of};
ghost use Rattle.high_ir.specs.Size.{expr_nodes, nodes, function_nodes, program_nodes};
ghost use Rattle.high_ir.specs.Standing.{loops_in};
ghost use Rattle.high_ir.specs.View.{expr_of, statement_of, function_of};

use super::expression::Expr;
use super::high::{Function, High};
use super::statement::Statement;

/// The expressions within an expression, itself included.
fn expr_size(expr: &Expr) -> u32
    requires { expr_nodes (expr_of expr.now) < 2 ^ 32 }
    ensures { result ≡ expr_nodes (expr_of expr.now) }
{
    match expr {
        Expr::Constant(_) => 1,
        Expr::Variable(_) => 1,
        Expr::Element { index, .. } => expr_size(index) + 1,
        Expr::Unary { operand, .. } => expr_size(operand) + 1,
        Expr::Binary { left, right, .. } => expr_size(left) + expr_size(right) + 1,
    }
}

fn exprs_size(exprs: &[Expr]) -> u32
    requires { sum_by (λ e. expr_nodes (expr_of e)) exprs.now < 2 ^ 32 }
    ensures { result ≡ sum_by (λ e. expr_nodes (expr_of e)) exprs.now }
{
    let mut sum = 0;
    for expr in exprs {
        sum += expr_size(expr);
    }
    sum
}

/// The statements and expressions within a statement, itself included.
#[cycle(statements)]
pub fn statement_size(statement: &Statement) -> u32
    requires { nodes (statement_of statement.now) < 2 ^ 32 }
    ensures { result ≡ nodes (statement_of statement.now) }
{
    match statement {
        Statement::Set { value, .. } => expr_size(value) + 1,
        Statement::Put { value } => expr_size(value) + 1,
        Statement::Get { .. } => 1,
        Statement::Keep { index, value, .. } => expr_size(index) + expr_size(value) + 1,
        Statement::Mark { .. } => 1,
        Statement::Seq(parts) => statements_size(parts) + 1,
        Statement::If { test, first, other } => {
            expr_size(test) + statement_size(first) + statement_size(other) + 1
        }
        Statement::Loop { body, .. } => statement_size(body) + 1,
        Statement::Block(body) => statement_size(body) + 1,
        Statement::Leave { .. } => 1,
        Statement::Call { values, arrays, .. } => exprs_size(values) + arrays.len() as u32 + 1,
        Statement::Return { value } => expr_size(value) + 1,
    }
}

#[cycle(statements)]
fn statements_size(parts: &[Statement]) -> u32
    requires { sum_by (λ s. nodes (statement_of s)) parts.now < 2 ^ 32 }
    ensures { result ≡ sum_by (λ s. nodes (statement_of s)) parts.now }
{
    let mut sum = 0;
    for part in parts {
        sum += statement_size(part);
    }
    sum
}

fn functions_size(functions: &[Function]) -> u32
    requires { sum_by (λ f. function_nodes (function_of f)) functions.now < 2 ^ 32 }
    ensures { result ≡ sum_by (λ f. function_nodes (function_of f)) functions.now }
{
    let mut sum = 0;
    for function in functions {
        sum += statement_size(&function.body) + 1;
    }
    sum
}

/// The number of statements and expressions of a program, each function's opening mark included.
pub fn size(program: &High) -> u32
    ensures { result ≡ program_nodes (program_of program.now) }
{
    functions_size(&program.functions)
}

/// The number of loops of a program.
pub fn loops(program: &High) -> u32
    ensures { result ≡ length (loops_in (program_of program.now).functions) }
{
    program.loops
}
