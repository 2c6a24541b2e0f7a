// A program with shorter ways.
ghost use Rattle.std.specs.Prelude.{map, IfOk, IfSome};
ghost use Rattle.std.specs.List.{AllZip};
ghost use Rattle.low_ir.specs.Programs.{low_of};
ghost use Rattle.low_ir.specs.View.{function_of};
ghost use Rattle.pass_jump_threading_law.specs.Threads.{FunctionThreaded, IsThreaded, MayBeThreaded};

use super::making::function_threaded;
use low_ir::{Function, Low};
use low_parts::programs::with_functions;
use std::alloc::Global;
use wcc_base::Memory;

/// Functions with shorter ways, if the plan of each fits. By mark: whether its block stays even where no way leads to it.
fn functions_by(
    alloc: Global,
    functions: &[Function],
    never: &[bool],
) -> Result<Option<Vec<Function>>, Memory>
    ensures { IfOk result (λ o. IfSome o (λ made. AllZip FunctionThreaded (map function_of functions.now) (map function_of made.items))) }
{
    let mut made = Vec::new(alloc);
    for function in functions {
        let Some(new) = function_threaded(alloc, function, never)? else {
            return Ok(None);
        };
        made.push(new)?;
    }
    Ok(Some(made))
}

/// Functions with shorter ways, if the plan of each fits.
pub fn functions_threaded(
    alloc: Global,
    functions: &[Function],
) -> Result<Option<Vec<Function>>, Memory>
    ensures { IfOk result (λ o. IfSome o (λ made. AllZip FunctionThreaded (map function_of functions.now) (map function_of made.items))) }
{
    functions_by(alloc, functions, &[])
}

/// A program with other functions.
fn made_of(low: Low, new: Vec<Function>) -> Low
    requires { AllZip FunctionThreaded (map function_of low.functions.items) (map function_of new.items) }
    ensures { IsThreaded (low_of low) (low_of result) }
{
    with_functions(low, new)
}

/// A program whose jumps go past blocks that do nothing; or as it is, where a plan doesn't fit, which no program is known to need.
/// By mark: whether its block stays even where no way leads to it.
pub fn threaded(alloc: Global, low: Low, never: &[bool]) -> Result<Low, Memory>
    ensures { IfOk result (λ l. MayBeThreaded (low_of low) (low_of l)) }
{
    match functions_by(alloc, &low.functions, never) {
        Ok(None) => Ok(low),
        Ok(Some(functions)) => Ok(made_of(low, functions)),
        Err(memory) => {
            drop(low);
            Err(memory)
        }
    }
}
