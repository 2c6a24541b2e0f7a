// The variables of a call.
ghost use Rattle.std.specs.Prelude.{◌≡◌, IfOk};
ghost use Rattle.high_ir.specs.Runs.{frame, takes};
ghost use Rattle.high_ir.specs.View.{function_of};

use high_ir::Function;
use std::alloc::Global;
use wcc_base::Memory;

/// The values, and locals that are unwritten.
pub fn frame(alloc: Global, function: &Function, values: &[u32]) -> Result<Vec<Option<u32>>, Memory>
    ensures { IfOk result (λ v. v.items ≡ frame (function_of function.now) values.now) }
{
    let mut variables = Vec::new(alloc);
    for word in values {
        variables.push(Some(*word))?;
    }
    for _ in 0..function.locals {
        variables.push(None)?;
    }
    Ok(variables)
}

/// Whether a function takes so many values and arrays.
pub fn takes(function: &Function, values: &[u32], arrays: &[u32]) -> bool
    ensures { result ≡ takes (function_of function.now) values.now arrays.now }
{
    values.len() == function.values as usize && arrays.len() == function.arrays as usize
}
