// Programs with loops.
ghost use Rattle.std.specs.Prelude.{◌≡◌, IfOk};
ghost use Rattle.high_ir.specs.Formed.{IsHigh};
ghost use Rattle.high_ir.specs.Programs.{program_of};
ghost use Rattle.high_ir.specs.Tree.{Binary, Block, Constant, End, Loop, Seq, Then, Variable};
ghost use Rattle.high_ir.specs.View.{expr_of, function_of, statement_of, statements_of};
ghost use Rattle.high_cases.specs.Loops.{add_to, around, by_tens, count_up, main_of, unless};

use high_ir::expression::{BinaryOperator, Expr};
use high_ir::expressions::binary;
use high_ir::statement::Statement;
use high_ir::statements::{block, choice, loop_of};
use high_ir::{Function, High};
use std::alloc::Global;
use wcc_base::Memory;

/// A statement of these parts.
#[tactic(auto, using(crate::proofs::Samples::seq_view))]
fn seq(parts: Vec<Statement>) -> Statement
    ensures { statement_of result ≡ Seq (statements_of parts.items) }
{
    Statement::Seq(parts)
}

/// Leaves the block around it where a value is 0.
fn unless(alloc: Global, test: Expr) -> Result<Statement, Memory>
    ensures { IfOk result (λ s. statement_of s ≡ unless (expr_of test)) }
{
    choice(
        alloc,
        test,
        seq(Vec::new(alloc)),
        Statement::Leave { depth: 0 },
    )
}

fn add_to(alloc: Global, variable: u32, value: Expr) -> Result<Statement, Memory>
    ensures { IfOk result (λ s. statement_of s ≡ add_to variable (expr_of value)) }
{
    let sum = binary(alloc, BinaryOperator::Add, Expr::Variable(variable), value)?;
    Ok(Statement::Set {
        variable,
        value: sum,
    })
}

/// Leaves the block around it where an operator of a variable and a constant gives 0.
fn while_so(
    alloc: Global,
    operator: BinaryOperator,
    variable: u32,
    word: u32,
) -> Result<Statement, Memory>
    ensures { IfOk result (λ s. statement_of s ≡ unless (Binary operator (Variable variable) (Constant word))) }
{
    let test = binary(
        alloc,
        operator,
        Expr::Variable(variable),
        Expr::Constant(word),
    )?;
    unless(alloc, test)
}

fn three(
    alloc: Global,
    first: Statement,
    second: Statement,
    third: Statement,
) -> Result<Statement, Memory>
    ensures { IfOk result (λ s. statement_of s ≡ Seq (Then (statement_of first) (Then (statement_of second) (Then (statement_of third) End)))) }
{
    Ok(seq(Vec::from_array(alloc, [first, second, third])?))
}

/// Counts a variable up to a limit, and adds up what it was.
fn count_up(alloc: Global, limit: u32, min: u32, max: u32) -> Result<Statement, Memory>
    ensures { IfOk result (λ s. statement_of s ≡ count_up limit min max) }
{
    let test = while_so(alloc, BinaryOperator::Less, 0, limit)?;
    let sum = add_to(alloc, 1, Expr::Variable(0))?;
    let next = add_to(alloc, 0, Expr::Constant(1))?;
    let body = three(alloc, test, sum, next)?;
    let turns = loop_of(alloc, 0, min, max, body)?;
    block(alloc, turns)
}

fn two(alloc: Global, first: Statement, second: Statement) -> Result<Statement, Memory>
    ensures { IfOk result (λ s. statement_of s ≡ Seq (Then (statement_of first) (Then (statement_of second) End))) }
{
    Ok(seq(Vec::from_array(alloc, [first, second])?))
}

/// A loop of 10 starts in its block: a statement, and then whether it goes on.
fn ten_times(
    alloc: Global,
    number: u32,
    body: Statement,
    again: Statement,
) -> Result<Statement, Memory>
    ensures { IfOk result (λ s. statement_of s ≡ Block (Loop number 10 10 (Seq (Then (statement_of body) (Then (statement_of again) End))))) }
{
    let both = two(alloc, body, again)?;
    let turns = loop_of(alloc, number, 10, 10, both)?;
    block(alloc, turns)
}

/// Counts a variable up to 10, again and again until it is 100.
fn by_tens(alloc: Global) -> Result<Statement, Memory>
    ensures { IfOk result (λ s. statement_of s ≡ by_tens) }
{
    let next = add_to(alloc, 0, Expr::Constant(1))?;
    let ones = while_so(alloc, BinaryOperator::Remainder, 0, 10)?;
    let inner = ten_times(alloc, 1, next, ones)?;
    let below = while_so(alloc, BinaryOperator::Less, 0, 100)?;
    ten_times(alloc, 0, inner, below)
}

/// A function that sets two variables, has a statement, and returns one of them.
fn function(alloc: Global, first: u32, body: Statement, of: u32) -> Result<Function, Memory>
    ensures { IfOk result (λ f. function_of f ≡ main_of first (statement_of body) of) }
{
    let start = Statement::Set {
        variable: 0,
        value: Expr::Constant(first),
    };
    let none = Statement::Set {
        variable: 1,
        value: Expr::Constant(0),
    };
    let end = Statement::Return {
        value: Expr::Variable(of),
    };
    let parts = Vec::from_array(alloc, [start, none, body, end])?;
    Ok(Function {
        values: 0,
        arrays: 0,
        locals: 2,
        rank: 0,
        body: seq(parts),
    })
}

/// A program of this function, with so many loops.
fn around(alloc: Global, function: Function, loops: u32) -> Result<High, Memory>
    requires { IsHigh (around (function_of function) loops) }
    ensures { IfOk result (λ p. program_of p ≡ around (function_of function) loops) }
{
    let functions = Vec::from_array(alloc, [function])?;
    Ok(High {
        functions,
        objects: Vec::new(alloc),
        main: 0,
        marks: 1,
        loops,
    })
}

/// A loop from so many to so many starts.
#[derive(Clone, Copy)]
pub struct Starts {
    pub min: u32,
    pub max: u32,
}

/// A program that counts up within a range by a loop of these bounds, and returns one of its variables.
pub fn counting(
    alloc: Global,
    first: u32,
    limit: u32,
    by: Starts,
    of: u32,
) -> Result<High, Memory> {
    let body = count_up(alloc, limit, by.min, by.max)?;
    let main = function(alloc, first, body, of)?;
    around(alloc, main, 1)
}

/// A program that counts up to 100 by tens, by a loop within a loop.
pub fn nested(alloc: Global) -> Result<High, Memory> {
    let body = by_tens(alloc)?;
    let main = function(alloc, 0, body, 0)?;
    around(alloc, main, 2)
}
