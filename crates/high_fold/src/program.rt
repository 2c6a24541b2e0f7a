// The functions of a program, and the program that they make.
ghost use Rattle.std.specs.Prelude.{◌≡◌, ◌++◌, IfOk, OnOk, length, map};
ghost use Rattle.high_ir.specs.Programs.{program_of};
ghost use Rattle.high_ir.specs.View.{function_of};
ghost use Rattle.high_folded.specs.Folded.{folded_function, folded_functions, folded_program, kept_in, kept_loops};

use super::statements::{folded, next_number};
use high_ir::{Function, High};
use high_parts::objects::copied_objects;
use std::alloc::Global;
use wcc_base::Memory;

fn folded_function(
    alloc: Global,
    function: &Function,
    kept: &mut Vec<u32>,
) -> Result<Function, Memory>
    ensures made { IfOk result (λ f. function_of f ≡ folded_function (length kept.old.items) (function_of function.now)) }
    ensures kept { OnOk result (kept.new.items ≡ kept.old.items ++ kept_loops (function_of function.now).body) }
{
    Ok(Function {
        values: function.values,
        arrays: function.arrays,
        locals: function.locals,
        rank: function.rank,
        body: folded(alloc, &function.body, kept)?,
    })
}

fn folded_functions(
    alloc: Global,
    functions: &[Function],
    kept: &mut Vec<u32>,
) -> Result<Vec<Function>, Memory>
    ensures made { IfOk result (λ v. map function_of v.items ≡ folded_functions (length kept.old.items) (map function_of functions.now)) }
    ensures kept { OnOk result (kept.new.items ≡ kept.old.items ++ kept_in (map function_of functions.now)) }
{
    let mut made = Vec::new(alloc);
    for function in functions {
        made.push(folded_function(alloc, function, kept)?)?;
    }
    Ok(made)
}

/// The functions of a folded program, and the old numbers of its loops, by their new ones.
#[derive(Drop)]
struct Functions {
    functions: Vec<Function>,
    kept: Vec<u32>,
    loops: u32,
}

fn all_functions(alloc: Global, functions: &[Function]) -> Result<Functions, Memory>
    ensures functions { IfOk result (λ f. map function_of f.functions.items ≡ folded_functions 0 (map function_of functions.now)) }
    ensures kept { IfOk result (λ f. f.kept.items ≡ kept_in (map function_of functions.now)) }
    ensures loops { IfOk result (λ f. f.loops ≡ length (kept_in (map function_of functions.now))) }
{
    let mut kept = Vec::new(alloc);
    let functions = folded_functions(alloc, functions, &mut kept)?;
    match next_number(&kept) {
        Ok(loops) => Ok(Functions {
            functions,
            kept,
            loops,
        }),
        Err(memory) => {
            drop(functions);
            Err(memory)
        }
    }
}

/// The folded program, and the old numbers of its loops, by their new ones.
pub fn folded_program(alloc: Global, old: &High) -> Result<(High, Vec<u32>), Memory>
    ensures program { IfOk result (λ p. program_of p.0 ≡ folded_program (program_of old.now)) }
    ensures kept { IfOk result (λ p. p.1.items ≡ kept_in (program_of old.now).functions) }
{
    let objects = copied_objects(alloc, &old.objects)?;
    match all_functions(alloc, &old.functions) {
        Ok(made) => {
            let program = High {
                functions: made.functions,
                objects,
                main: old.main,
                marks: old.marks,
                loops: made.loops,
            };
            Ok((program, made.kept))
        }
        Err(memory) => {
            drop(objects);
            Err(memory)
        }
    }
}
