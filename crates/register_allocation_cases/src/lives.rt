// The intervals of functions.
ghost use Rattle.std.specs.Prelude.{map, IfOk};
ghost use Rattle.low_ir.specs.View.{function_of};
ghost use Rattle.register_allocation.specs.Fitting.{HaveIntervals};

use low_ir::Function;
use register_live_ranges::{Live, intervals_of};
use std::alloc::Global;
use wcc_base::{Items, Memory};

pub fn lives_of(alloc: Global, functions: &[Function]) -> Result<Live, Memory>
    ensures { IfOk result (λ l. HaveIntervals (map function_of functions.now) l) }
{
    let mut lives = Vec::new(alloc);
    for function in functions {
        lives.push(Items::new(intervals_of(alloc, function)?))?;
    }
    Ok(Live::new(lives))
}
