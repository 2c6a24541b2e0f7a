// An assignment of machine registers.
ghost use Rattle.std.specs.Prelude.{◌≡◌, IfOk, map};
ghost use Rattle.std.specs.List.{range_with_len};
ghost use Rattle.low_ir.specs.Places.{placing_of};
ghost use Rattle.low_ir.specs.View.{function_of};
ghost use Rattle.layout_cases.specs.Registers.{place_at, in_registers};

use crate::rooms::spots;
use low_ir::{Function, Low, LowReg, Place, Placing};
use std::alloc::Global;
use wcc_base::Memory;

fn place_at(register: u32) -> Place
    ensures { result ≡ place_at register }
{
    if register < 24 {
        Place::Register(register as u8)
    } else {
        Place::Slot(register)
    }
}

fn places(alloc: Global, registers: u32) -> Result<Vec<Place>, Memory>
    ensures { IfOk result (λ p. p.items ≡ map place_at (range_with_len 0 registers)) }
{
    let mut places = Vec::new(alloc);
    for register in 0..registers {
        places.push(place_at(register))?;
    }
    Ok(places)
}

fn placing(alloc: Global, function: &Function) -> Result<Placing, Memory>
    ensures { IfOk result (λ p. placing_of p ≡ in_registers (function_of function.now)) }
{
    let Some(spots) = spots(&function.blocks) else {
        return Err(Memory);
    };
    let places = places(alloc, function.registers)?;
    let kept = vec![in alloc; 0xff_ffff; spots as usize]?;
    Ok(Placing {
        places,
        kept,
        slots: function.registers,
    })
}

fn placings(alloc: Global, functions: &[Function]) -> Result<Vec<Placing>, Memory>
    ensures { IfOk result (λ ps. map placing_of ps.items ≡ map (λ f. in_registers (function_of f)) functions.now) }
{
    let mut all = Vec::new(alloc);
    for function in functions {
        all.push(placing(alloc, function)?)?;
    }
    Ok(all)
}

/// The first 24 registers of each function in machine registers, all of which each call keeps, and the others in slots.
pub fn in_registers(alloc: Global, low: Low) -> Result<LowReg, Memory> {
    let placings = placings(alloc, &low.functions)?;
    Ok(LowReg { low, placings })
}
