// What a call passes, and where.
ghost use Rattle.std.specs.Prelude.{◌≡◌, All, map, take, slice_index_or, IfOk};
ghost use Rattle.low_ir.specs.View as view;
ghost use Rattle.low_ir.specs.Places.{place_operand, no_placing};
ghost use Rattle.low_ir.specs.Placings.{placings_of, placed_of};
ghost use Rattle.asm_program.specs.Functions.{function_in};
ghost use Rattle.asm_program.specs.Ranges.{InOperand, InProgram};
ghost use Rattle.asm_emission.specs.View.{operand_of, place_at};
ghost use Rattle.asm_code.specs.Passed.{IsPassing, Passes};
ghost use Rattle.asm_code.specs.Scopes.{kept_at, program};

use super::passed::Passing;
use super::scope::Scope;
use asm_emission::{PlacedOperand, kept_among, place_of, place_operand};
use low_ir::{LowReg, Operand, Place};
use std::alloc::Global;
use wcc_base::Memory;

/// The places of the registers of a function.
pub fn places_of(code: &LowReg, function: usize) -> &[Place]
    ensures { result.now ≡ (slice_index_or (placings_of code.now) function no_placing).places }
{
    match code.placings.get(function) {
        Some(placing) => placing.places.as_slice(),
        None => &[],
    }
}

/// The registers that the calls of a function keep, by the place of the code.
pub fn kept_of(code: &LowReg, function: usize) -> &[u32]
    ensures { result.now ≡ (slice_index_or (placings_of code.now) function no_placing).kept }
{
    match code.placings.get(function) {
        Some(placing) => placing.kept.as_slice(),
        None => &[],
    }
}

fn some_places(alloc: Global, places: &[Place], registers: &[u32]) -> Result<Vec<Place>, Memory>
    ensures { IfOk result (λ v. v.items ≡ map (place_at places.now) registers.now) }
{
    let mut some = Vec::new(alloc);
    for register in registers {
        some.push(place_of(places, *register))?;
    }
    Ok(some)
}

fn first(registers: &[u32], count: usize) -> &[u32]
    ensures { result.now ≡ take count registers.now }
{
    if count < registers.len() {
        &registers[..count]
    } else {
        registers
    }
}

/// The places of the first parameters of a function.
fn parameters_of(
    alloc: Global,
    code: &LowReg,
    function: usize,
    count: usize,
) -> Result<Vec<Place>, Memory>
    ensures { IfOk result (λ v. v.items ≡ take count (function_in (placed_of code.now) function).parameters) }
{
    match code.low.functions.get(function) {
        Some(callee) => {
            let registers = first(callee.parameters.as_slice(), count);
            let places = some_places(alloc, places_of(code, function), registers)?;
            Ok(places)
        }
        None => Ok(Vec::new(alloc)),
    }
}

fn operands_of(
    alloc: Global,
    places: &[Place],
    operands: &[Operand],
) -> Result<Vec<PlacedOperand>, Memory>
    ensures { IfOk result (λ v. map operand_of v.items ≡ map (place_operand (place_at places.now)) (map view.operand_of operands.now)) }
{
    let mut placed = Vec::new(alloc);
    for operand in operands {
        placed.push(place_operand(places, *operand))?;
    }
    Ok(placed)
}

fn mask_at(masks: &[u32], place: usize) -> u32
    ensures { result ≡ slice_index_or masks.now place 0 }
{
    match masks.get(place) {
        Some(mask) => *mask,
        None => 0,
    }
}

/// What a call at a place of the code passes.
pub fn passing_of(
    alloc: Global,
    scope: &Scope<'_>,
    place: usize,
    function: u32,
    arguments: &[Operand],
) -> Result<Passing, Memory>
    requires program { InProgram (program scope.now) }
    requires arguments { All InOperand (map (place_operand (place_at scope.now.places.now)) (map view.operand_of arguments.now)) }
    ensures passes { IfOk result (λ p. Passes (program scope.now) function (map (place_operand (place_at scope.now.places.now)) (map view.operand_of arguments.now)) (kept_at scope.now.kept.now place) p) }
    ensures fits { IfOk result IsPassing }
{
    let places = parameters_of(alloc, scope.code, function as usize, arguments.len())?;
    let kept = kept_among(alloc, mask_at(scope.kept, place), places.as_slice())?;
    let arguments = operands_of(alloc, scope.places, arguments)?;
    Ok(Passing {
        places,
        arguments,
        kept,
    })
}
