// Calls that become the bodies of their functions.
ghost use Rattle.std.specs.Prelude.{◌≡◌, IfOk};
ghost use Rattle.high_ir.specs.View.{statement_of};
ghost use Rattle.high_cases.specs.Calls.{call, calling, counting_down, pair};

use high_eval::evaluate;
use high_ir::expression::{BinaryOperator, Expr};
use high_ir::statement::Statement;
use high_ir::{Carried, Function, High};
use high_pass::Pass;
use inliner::Inline;
use std::alloc::Global;
use wcc_base::Memory;

fn pair(alloc: Global, first: Statement, other: Statement) -> Result<Statement, Memory>
    ensures { IfOk result (λ s. statement_of s ≡ pair (statement_of first) (statement_of other)) }
{
    let mut parts = Vec::new(alloc);
    parts.push(first)?;
    parts.push(other)?;
    Ok(Statement::Seq(parts))
}

/// Passes mark 2 as often as its value says, and returns 6.
fn counting_down(alloc: Global) -> Result<Statement, Memory>
    ensures { IfOk result (λ s. statement_of s ≡ counting_down) }
{
    let choice = Statement::If {
        test: Expr::Variable(0),
        first: Box::new(alloc, Statement::Mark { id: 2 })?,
        other: Box::new(
            alloc,
            Statement::Return {
                value: Expr::Constant(6),
            },
        )?,
    };
    let less = Expr::Binary {
        operator: BinaryOperator::Subtract,
        left: Box::new(alloc, Expr::Variable(0))?,
        right: Box::new(alloc, Expr::Constant(1))?,
    };
    let count = Statement::Set {
        variable: 0,
        value: less,
    };
    Ok(Statement::Loop {
        id: 0,
        min: 0,
        max: 9,
        body: Box::new(alloc, pair(alloc, choice, count)?)?,
    })
}

fn call(alloc: Global, word: u32, into: Option<u32>) -> Result<Statement, Memory>
    ensures { IfOk result (λ s. statement_of s ≡ call word into) }
{
    let mut values = Vec::new(alloc);
    values.push(Expr::Constant(word))?;
    Ok(Statement::Call {
        function: 0,
        values,
        arrays: Vec::new(alloc),
        into,
    })
}

/// Calls the loop with 1, 2 and 3, and returns what the last call gave.
fn calling(alloc: Global) -> Result<Statement, Memory>
    ensures { IfOk result (λ s. statement_of s ≡ calling) }
{
    let both = pair(alloc, call(alloc, 1, None)?, call(alloc, 2, None)?)?;
    let end = Statement::Return {
        value: Expr::Variable(0),
    };
    let last = pair(alloc, call(alloc, 3, Some(0))?, end)?;
    Ok(pair(alloc, both, last)?)
}

fn program(alloc: Global) -> Result<High, Memory> {
    let mut functions = Vec::new(alloc);
    functions.push(Function {
        values: 1,
        arrays: 0,
        locals: 0,
        rank: 0,
        body: counting_down(alloc)?,
    })?;
    functions.push(Function {
        values: 0,
        arrays: 0,
        locals: 1,
        rank: 1,
        body: calling(alloc)?,
    })?;
    Ok(High {
        functions,
        objects: Vec::new(alloc),
        main: 1,
        marks: 3,
        loops: 1,
    })
}

/// The program with its calls opened, where a function has at most so many nodes.
pub fn inlined(alloc: Global, limit: u32) -> Result<Carried, Memory> {
    let old = program(alloc)?;
    Ok(Inline { limit }.run(alloc, &old)?)
}

/// What the program returns, and how many marks it passes; none where its run isn't good.
pub fn returned(alloc: Global, program: &High) -> Result<Option<(u32, usize)>, Memory> {
    match evaluate(alloc, program, &[])? {
        None => Ok(None),
        Some(run) => Ok(Some((run.value, run.trace.len()))),
    }
}
