// A program without machine registers.
ghost use Rattle.std.specs.Prelude.{◌≡◌, map, IfOk};
ghost use Rattle.low_ir.specs.Programs.{low_of};
ghost use Rattle.low_ir.specs.Placings.{placings_of};
ghost use Rattle.low_ir.specs.Places.{placing_of, in_slots};
ghost use Rattle.low_ir.specs.View.{function_of};

use super::low::{Function, Low};
use super::places::{LowReg, Place, Placing};
use std::alloc::Global;
use wcc_base::Memory;

/// Each register of a function in a slot of its own.
fn slots_of(alloc: Global, function: &Function) -> Result<Placing, Memory>
    ensures { IfOk result (λ p. placing_of p ≡ in_slots (function_of function.now)) }
{
    let mut places = Vec::new(alloc);
    for register in 0..function.registers {
        places.push(Place::Slot(register))?;
    }
    Ok(Placing {
        places,
        kept: Vec::new(alloc),
        slots: function.registers,
    })
}

/// The same of each function.
fn each_in_slots(alloc: Global, functions: &[Function]) -> Result<Vec<Placing>, Memory>
    ensures { IfOk result (λ ps. map placing_of ps.items ≡ map (λ f. in_slots (function_of f)) functions.now) }
{
    let mut placings = Vec::new(alloc);
    for function in functions {
        placings.push(slots_of(alloc, function)?)?;
    }
    Ok(placings)
}

/// Each register of a program in a slot of its own.
pub fn all_slots(alloc: Global, low: Low) -> Result<LowReg, Memory>
    ensures low { IfOk result (λ r. r.low ≡ low) }
    ensures placings { IfOk result (λ r. placings_of r ≡ map in_slots (low_of low).functions) }
{
    let placings = each_in_slots(alloc, &low.functions)?;
    Ok(LowReg { low, placings })
}
