// Copies of marks that get numbers of their own.
ghost use Rattle.std.specs.Prelude.{IfOk};
ghost use Rattle.high_renumber.specs.Keeping.{IsLoose};
ghost use Rattle.high_renumber.specs.View.{loose_program};

use high_ir::expression::Expr;
use high_ir::statement::Statement;
use high_ir::{Copies, Function};
use high_renumber::{Loose, renumber};
use std::alloc::Global;
use wcc_base::Memory;

/// A program with two copies of mark 1 in a copy of loop 1, and none of mark 2 and of loop 0.
fn copied(alloc: Global) -> Result<Loose, Memory>
    ensures { IfOk result (λ p. IsLoose (loose_program p)) }
{
    let choice = Statement::If {
        test: Expr::Constant(7),
        first: Box::new(alloc, Statement::Mark { id: 1 })?,
        other: Box::new(alloc, Statement::Mark { id: 1 })?,
    };
    let mut functions = Vec::new(alloc);
    functions.push(Function {
        values: 0,
        arrays: 0,
        locals: 0,
        rank: 0,
        body: Statement::Loop {
            id: 1,
            min: 1,
            max: 1,
            body: Box::new(alloc, choice)?,
        },
    })?;
    Ok(Loose {
        functions,
        objects: Vec::new(alloc),
        main: 0,
        marks: 3,
        loops: 2,
    })
}

/// Which marks and loops of the program with numbers of their own are copies of which.
pub fn numbered(alloc: Global) -> Result<Copies, Memory> {
    let loose = copied(alloc)?;
    Ok(renumber(alloc, loose)?.copies)
}
