// Programs to be folded.
use high_ir::expression::{BinaryOperator, Expr};
use high_ir::statement::Statement;
use high_ir::{Function, High};
use std::alloc::{AllocError, Global};

/// `if (1 < 2) return 3; return 4;`
pub fn test_that_holds(alloc: Global) -> Result<High, AllocError> {
    let first = Statement::Return {
        value: Expr::Constant(3),
    };
    let other = Statement::Return {
        value: Expr::Constant(4),
    };
    let test = Expr::Binary {
        operator: BinaryOperator::Less,
        left: Box::new(alloc, Expr::Constant(1))?,
        right: Box::new(alloc, Expr::Constant(2))?,
    };
    let function = Function {
        values: 0,
        arrays: 0,
        locals: 0,
        rank: 0,
        body: Statement::If {
            test,
            first: Box::new(alloc, first)?,
            other: Box::new(alloc, other)?,
        },
    };
    let mut functions = Vec::new(alloc);
    functions.push(function)?;
    Ok(High {
        functions,
        objects: Vec::new(alloc),
        main: 0,
        marks: 1,
        loops: 0,
    })
}

/// `if (2 < 1) marker 1; else return 4;`
pub fn marker_left_out(alloc: Global) -> Result<High, AllocError> {
    let other = Statement::Return {
        value: Expr::Constant(4),
    };
    let test = Expr::Binary {
        operator: BinaryOperator::Less,
        left: Box::new(alloc, Expr::Constant(2))?,
        right: Box::new(alloc, Expr::Constant(1))?,
    };
    let function = Function {
        values: 0,
        arrays: 0,
        locals: 0,
        rank: 0,
        body: Statement::If {
            test,
            first: Box::new(alloc, Statement::Mark { id: 1 })?,
            other: Box::new(alloc, other)?,
        },
    };
    let mut functions = Vec::new(alloc);
    functions.push(function)?;
    Ok(High {
        functions,
        objects: Vec::new(alloc),
        main: 0,
        marks: 2,
        loops: 0,
    })
}

/// A choice between two loops, the second of which is taken.
pub fn loop_left_out(alloc: Global) -> Result<High, AllocError> {
    let once = Statement::Return {
        value: Expr::Constant(7),
    };
    let gone = Statement::Loop {
        id: 0,
        min: 0,
        max: 9,
        body: Box::new(alloc, Statement::Mark { id: 1 })?,
    };
    let stays = Statement::Loop {
        id: 1,
        min: 1,
        max: 2,
        body: Box::new(alloc, once)?,
    };
    let function = Function {
        values: 0,
        arrays: 0,
        locals: 0,
        rank: 0,
        body: Statement::If {
            test: Expr::Constant(0),
            first: Box::new(alloc, gone)?,
            other: Box::new(alloc, stays)?,
        },
    };
    let mut functions = Vec::new(alloc);
    functions.push(function)?;
    Ok(High {
        functions,
        objects: Vec::new(alloc),
        main: 0,
        marks: 2,
        loops: 2,
    })
}
