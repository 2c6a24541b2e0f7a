// How large the bodies of functions are, where they stand and in the place of calls.
ghost use Rattle.std.specs.Prelude.{◌≡◌, IfOk, map};
ghost use Rattle.high_ir.specs.View.{function_of};
ghost use Rattle.inliner.specs.Measures.{size_into, sizes_of};
ghost use Rattle.inliner.specs.View.{functions_of};

use super::measuring::{Measure, Returns, measured};
use high_ir::Function;
use std::alloc::Global;
use wcc_base::Memory;

/// How large a body is: as it is, and in the place of a call that asks for its value or doesn't.
#[derive(Clone, Copy)]
pub struct Sizes {
    pub whole: Measure,
    pub written: Measure,
    pub dropped: Measure,
}

impl Sizes {
    /// In the place of a call that asks for the value there, or doesn't ask.
    pub fn placed(self, variable: Option<u32>) -> Measure
        ensures { result ≡ size_into self variable }
    {
        match variable {
            None => self.dropped,
            Some(_) => self.written,
        }
    }
}

pub fn sizes_of(function: &Function) -> Result<Sizes, Memory>
    ensures { IfOk result (λ s. s ≡ sizes_of (function_of function.now)) }
{
    Ok(Sizes {
        whole: measured(Returns::Kept, &function.body)?,
        written: measured(Returns::Written, &function.body)?,
        dropped: measured(Returns::Dropped, &function.body)?,
    })
}

pub fn all_sizes(alloc: Global, functions: &[Function]) -> Result<Vec<Sizes>, Memory>
    ensures { IfOk result (λ s. s.items ≡ map sizes_of (functions_of functions.now)) }
{
    let mut sizes = Vec::new(alloc);
    for function in functions {
        sizes.push(sizes_of(function)?)?;
    }
    Ok(sizes)
}
