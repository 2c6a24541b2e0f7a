// What the items of an instruction touch.
ghost use Rattle.std.specs.Prelude.{◌≡◌, ◌++◌, [], OnOk};
ghost use Rattle.low_ir.specs.View.{instr_of};
ghost use Rattle.asm_program.specs.Numbers.{first_free, second_free};
ghost use Rattle.asm_program.specs.Frames.{frame_of};
ghost use Rattle.asm_program.specs.Operands.{address_code, operand_code, result_code};
ghost use Rattle.asm_program.specs.Functions.{instr_items, singles};
ghost use Rattle.asm_program.specs.Ranges.{InAddress, InInstr, InProgram};
ghost use Rattle.asm_emission.specs.View.{address_of, operand_of};
ghost use Rattle.asm_code.specs.Scopes.{IsScope, memory, program, placed_instr};
ghost use Rattle.claims_touches.specs.Named.{instr_names, item_names, load_names, store_names};

use super::touch::{Touch, base_touch, put_items};
use asm_code::{Scope, emit_instr};
use asm_emission::{
    FIRST_FREE, PlacedAddress, PlacedOperand, SECOND_FREE, emit_address, emit_operand, emit_result,
    place_address, place_of, place_operand,
};
use low_ir::{Instr, Place};
use std::alloc::Global;
use wcc_base::Memory;

/// What leads to an address.
fn put_address(
    alloc: Global,
    scope: &Scope<'_>,
    touches: &mut Vec<Touch>,
    address: PlacedAddress,
) -> Result<(), Memory>
    requires scope { IsScope scope.now }
    requires address { InAddress (address_of address) }
    ensures { OnOk result (touches.new.items ≡ touches.old.items ++ item_names (singles (address_code (frame_of (memory scope.now) scope.now.number) (memory scope.now) (address_of address)))) }
{
    let mut items = Vec::new(alloc);
    emit_address(scope.frame, &mut items, scope.memory, address)?;
    put_items(touches, items.as_slice())
}

/// How a value that is stored comes into a register.
fn put_operand(
    alloc: Global,
    scope: &Scope<'_>,
    touches: &mut Vec<Touch>,
    value: PlacedOperand,
) -> Result<(), Memory>
    requires { IsScope scope.now }
    ensures { OnOk result (touches.new.items ≡ touches.old.items ++ item_names (singles (operand_code (frame_of (memory scope.now) scope.now.number) second_free (operand_of value)))) }
{
    let mut items = Vec::new(alloc);
    emit_operand(scope.frame, &mut items, SECOND_FREE, value)?;
    put_items(touches, items.as_slice())
}

/// How what was loaded goes to its place.
fn put_result(
    alloc: Global,
    scope: &Scope<'_>,
    touches: &mut Vec<Touch>,
    into: Place,
) -> Result<(), Memory>
    requires { IsScope scope.now }
    ensures { OnOk result (touches.new.items ≡ touches.old.items ++ item_names (singles (result_code (frame_of (memory scope.now) scope.now.number) first_free second_free into))) }
{
    let mut items = Vec::new(alloc);
    emit_result(scope.frame, &mut items, FIRST_FREE, SECOND_FREE, into)?;
    put_items(touches, items.as_slice())
}

fn put_load(
    alloc: Global,
    scope: &Scope<'_>,
    touches: &mut Vec<Touch>,
    into: Place,
    address: PlacedAddress,
) -> Result<(), Memory>
    requires scope { IsScope scope.now }
    requires address { InAddress (address_of address) }
    ensures { OnOk result (touches.new.items ≡ touches.old.items ++ load_names (frame_of (memory scope.now) scope.now.number) (memory scope.now) into (address_of address)) }
{
    put_address(alloc, scope, touches, address)?;
    touches.push(base_touch(address.base))?;
    put_result(alloc, scope, touches, into)
}

fn put_store(
    alloc: Global,
    scope: &Scope<'_>,
    touches: &mut Vec<Touch>,
    address: PlacedAddress,
    value: PlacedOperand,
) -> Result<(), Memory>
    requires scope { IsScope scope.now }
    requires address { InAddress (address_of address) }
    ensures { OnOk result (touches.new.items ≡ touches.old.items ++ store_names (frame_of (memory scope.now) scope.now.number) (memory scope.now) (address_of address) (operand_of value)) }
{
    put_address(alloc, scope, touches, address)?;
    put_operand(alloc, scope, touches, value)?;
    touches.push(base_touch(address.base))?;
    Ok(())
}

/// An instruction that accesses no array.
fn put_other(
    alloc: Global,
    scope: &Scope<'_>,
    touches: &mut Vec<Touch>,
    place: usize,
    instr: &Instr,
) -> Result<(), Memory>
    requires scope { IsScope scope.now }
    requires program { InProgram (program scope.now) }
    requires there { InInstr (placed_instr scope.now place (instr_of instr.now)) }
    ensures { OnOk result (touches.new.items ≡ touches.old.items ++ item_names (instr_items (memory scope.now) (program scope.now) scope.now.number (placed_instr scope.now place (instr_of instr.now)) [])) }
{
    let mut items = Vec::new(alloc);
    emit_instr(alloc, scope, &mut items, place, instr)?;
    put_items(touches, items.as_slice())
}

/// What the items of the instruction at a place of the code touch.
pub fn put_instr(
    alloc: Global,
    scope: &Scope<'_>,
    touches: &mut Vec<Touch>,
    place: usize,
    instr: &Instr,
) -> Result<(), Memory>
    requires scope { IsScope scope.now }
    requires program { InProgram (program scope.now) }
    requires there { InInstr (placed_instr scope.now place (instr_of instr.now)) }
    ensures { OnOk result (touches.new.items ≡ touches.old.items ++ instr_names (memory scope.now) (program scope.now) scope.now.number (placed_instr scope.now place (instr_of instr.now))) }
{
    let places = scope.places;
    match instr {
        Instr::Load { into, address, .. } => {
            let into = place_of(places, *into);
            let address = place_address(places, *address);
            put_load(alloc, scope, touches, into, address)
        }
        Instr::Store { address, value, .. } => {
            let address = place_address(places, *address);
            let value = place_operand(places, *value);
            put_store(alloc, scope, touches, address, value)
        }
        Instr::Set { .. } => put_other(alloc, scope, touches, place, instr),
        Instr::Operate { .. } => put_other(alloc, scope, touches, place, instr),
        Instr::Point { .. } => put_other(alloc, scope, touches, place, instr),
        Instr::Put { .. } => put_other(alloc, scope, touches, place, instr),
        Instr::Get { .. } => put_other(alloc, scope, touches, place, instr),
        Instr::Call { .. } => put_other(alloc, scope, touches, place, instr),
    }
}
