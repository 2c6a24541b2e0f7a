// The operations of a program: its nodes without constants and variables, and a value that is passed is one more.
ghost use Rattle.std.specs.Prelude.{◌≡◌, ◌+◌, ◌<◌, ◌^◌, sum_by};
ghost use Rattle.high_ir.specs.Programs.{program_of};
ghost use Rattle.high_ir.specs.Size.{expr_operations, operations, program_operations};
ghost use Rattle.high_ir.specs.View.{expr_of, function_of, statement_of};

use high_ir::expression::Expr;
use high_ir::statement::Statement;
use high_ir::{Function, High};

fn of_expr(expr: &Expr) -> u32
    requires { expr_operations (expr_of expr.now) < 2 ^ 32 }
    ensures { result ≡ expr_operations (expr_of expr.now) }
{
    match expr {
        Expr::Constant(_) => 0,
        Expr::Variable(_) => 0,
        Expr::Element { index, .. } => of_expr(index) + 1,
        Expr::Unary { operand, .. } => of_expr(operand) + 1,
        Expr::Binary { left, right, .. } => of_expr(left) + of_expr(right) + 1,
    }
}

fn of_exprs(exprs: &[Expr]) -> u32
    requires { sum_by (λ e. expr_operations (expr_of e)) exprs.now < 2 ^ 32 }
    ensures { result ≡ sum_by (λ e. expr_operations (expr_of e)) exprs.now }
{
    let mut sum = 0;
    for expr in exprs {
        sum += of_expr(expr);
    }
    sum
}

#[cycle(statements)]
fn of_statement(statement: &Statement) -> u32
    requires { operations (statement_of statement.now) < 2 ^ 32 }
    ensures { result ≡ operations (statement_of statement.now) }
{
    match statement {
        Statement::Set { value, .. } => of_expr(value) + 1,
        Statement::Put { value } => of_expr(value) + 1,
        Statement::Get { .. } => 1,
        Statement::Keep { index, value, .. } => of_expr(index) + of_expr(value) + 1,
        Statement::Mark { .. } => 1,
        Statement::Seq(parts) => of_statements(parts) + 1,
        Statement::If { test, first, other } => {
            of_expr(test) + of_statement(first) + of_statement(other) + 1
        }
        Statement::Loop { body, .. } => of_statement(body) + 1,
        Statement::Block(body) => of_statement(body) + 1,
        Statement::Leave { .. } => 1,
        Statement::Call { values, arrays, .. } => {
            of_exprs(values) + values.len() as u32 + arrays.len() as u32 + 1
        }
        Statement::Return { value } => of_expr(value) + 1,
    }
}

#[cycle(statements)]
fn of_statements(parts: &[Statement]) -> u32
    requires { sum_by (λ s. operations (statement_of s)) parts.now < 2 ^ 32 }
    ensures { result ≡ sum_by (λ s. operations (statement_of s)) parts.now }
{
    let mut sum = 0;
    for part in parts {
        sum += of_statement(part);
    }
    sum
}

fn of_functions(functions: &[Function]) -> u32
    requires { sum_by (λ f. operations (function_of f).body + 1) functions.now < 2 ^ 32 }
    ensures { result ≡ sum_by (λ f. operations (function_of f).body + 1) functions.now }
{
    let mut sum = 0;
    for function in functions {
        sum += of_statement(&function.body) + 1;
    }
    sum
}

/// The number of operations of a program.
pub fn operations(program: &High) -> u32
    ensures { result ≡ program_operations (program_of program.now) }
{
    of_functions(&program.functions)
}
