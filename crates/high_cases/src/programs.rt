// A program, its size and its loops.
use high_ir::expression::Expr;
use high_ir::statement::Statement;
use high_ir::{Function, High};
use std::alloc::{AllocError, Global};

/// A program whose function returns at the second start of its loop.
pub fn program(alloc: Global) -> Result<High, AllocError> {
    let once = Statement::Return {
        value: Expr::Constant(7),
    };
    let body = Statement::If {
        test: Expr::Variable(0),
        first: Box::new(alloc, once)?,
        other: Box::new(alloc, Statement::Mark { id: 1 })?,
    };
    let function = Function {
        values: 0,
        arrays: 0,
        locals: 1,
        rank: 0,
        body: Statement::Loop {
            id: 0,
            min: 1,
            max: 2,
            body: Box::new(alloc, body)?,
        },
    };
    let mut functions = Vec::new(alloc);
    functions.push(function)?;
    Ok(High {
        functions,
        objects: Vec::new(alloc),
        main: 0,
        marks: 2,
        loops: 1,
    })
}
