// A program, made again.
ghost use Rattle.std.specs.Prelude.{◌≡◌, IfOk, map};
ghost use Rattle.high_ir.specs.Programs.{program_of};
ghost use Rattle.high_ir.specs.View.{function_of};

use super::statements::copied;
use high_ir::{Function, High};
use high_parts::objects::copied_objects;
use std::alloc::Global;
use wcc_base::Memory;

fn copied_function(alloc: Global, function: &Function) -> Result<Function, Memory>
    ensures { IfOk result (λ f. function_of f ≡ function_of function.now) }
{
    Ok(Function {
        values: function.values,
        arrays: function.arrays,
        locals: function.locals,
        rank: function.rank,
        body: copied(alloc, &function.body)?,
    })
}

/// The same functions again.
pub fn copied_functions(alloc: Global, functions: &[Function]) -> Result<Vec<Function>, Memory>
    ensures { IfOk result (λ v. map function_of v.items ≡ map function_of functions.now) }
{
    let mut copies = Vec::new(alloc);
    for function in functions {
        copies.push(copied_function(alloc, function)?)?;
    }
    Ok(copies)
}

/// The same program again.
pub fn copied_program(alloc: Global, old: &High) -> Result<High, Memory>
    ensures { IfOk result (λ p. program_of p ≡ program_of old.now) }
{
    let objects = copied_objects(alloc, &old.objects)?;
    match copied_functions(alloc, &old.functions) {
        Ok(functions) => {
            let program = High {
                functions,
                objects,
                main: old.main,
                marks: old.marks,
                loops: old.loops,
            };
            Ok(program)
        }
        Err(memory) => {
            drop(objects);
            Err(memory)
        }
    }
}
