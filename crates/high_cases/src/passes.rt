// A pass behind another.
ghost use Rattle.std.specs.Prelude.{◌≡◌, IfOk};
ghost use Rattle.high_ir.specs.Programs.{program_of};
ghost use Rattle.high_cases.specs.Sample.{returning};

use high_again::Again;
use high_ir::expression::Expr;
use high_ir::statement::Statement;
use high_ir::{Copies, Function, High, MarkCopies};
use high_pass::chain;
use std::alloc::Global;
use wcc_base::Memory;

/// A program that returns a word at once.
fn returning(alloc: Global, word: u32) -> Result<High, Memory>
    ensures { IfOk result (λ p. program_of p ≡ returning word) }
{
    let mut functions = Vec::new(alloc);
    functions.push(Function {
        values: 0,
        arrays: 0,
        locals: 0,
        rank: 0,
        body: Statement::Return {
            value: Expr::Constant(word),
        },
    })?;
    Ok(High {
        functions,
        objects: Vec::new(alloc),
        main: 0,
        marks: 1,
        loops: 0,
    })
}

/// The copies of a pass that makes the same again, behind one that made one copy of mark 5.
pub fn chained(alloc: Global) -> Result<Copies, Memory> {
    let program = returning(alloc, 7)?;
    let mut marks = Vec::new(alloc);
    marks.push(MarkCopies {
        old: 5,
        new: vec![in alloc; 0]?,
    })?;
    let whole = Copies {
        marks,
        loops: Vec::new(alloc),
        nevers: Vec::new(alloc),
    };
    Ok(chain(alloc, &program, &whole, &Again)?.whole)
}
