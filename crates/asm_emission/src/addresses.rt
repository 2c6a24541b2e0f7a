// Addresses come into machine registers.
ghost use Rattle.std.specs.Prelude.{◌≡◌, ◌+◌, ◌%◌, ◌<◌, ◌^◌, ◌++◌, All, true, IfOk, OnOk};
ghost use Rattle.std.specs.Option.{option_to_list};
ghost use Rattle.rv_core.specs.Instructions.{is_within};
ghost use Rattle.asm_program.specs.Frames.{object_at};
ghost use Rattle.asm_program.specs.Numbers.{is_short, lower_of, object_register, object_code, object_offset};
ghost use Rattle.asm_program.specs.Operands.{offset_code, offset_register, far_code, far_register, address_code, address_register, address_offset};
ghost use Rattle.asm_program.specs.Functions.{singles};
ghost use Rattle.asm_program.specs.Ranges.{IsRegister, InAddress};
ghost use Rattle.asm_emission.specs.View.{address_of};
ghost use Rattle.asm_emission.specs.Reaching.{pointer_code, pointer_register};

use super::numbers::{FIRST_FREE, SECOND_FREE, is_short, lower_of, object_offset, object_register};
use super::operands::{emit_fetch, place_register};
use super::placed::{PlacedAddress, PlacedBase};
use super::words::{add_registers, emit, emit_object, load_upper};
use asm_data::{Data, Frame};
use asm_items::Item;
use low_ir::Place;
use wcc_base::Memory;

/// What an address has come to: a register, and what an access adds to it.
#[derive(Clone, Copy)]
pub struct Reached {
    pub register: u8,
    pub offset: i32,
}

/// The address in an array of the bytes behind its first, modulo 2^32.
fn address_in(memory: &Data, object: u32, displacement: u32) -> u64
    ensures value { result ≡ (object_at memory.now object + displacement) % 2 ^ 32 }
    ensures small { result < 2 ^ 32 }
{
    (u64::from(memory.object_at(object)) + u64::from(displacement)) % 0x1_0000_0000
}

/// An offset at a place is added to a register; where the sum is.
fn emit_offset(
    frame: &Frame,
    code: &mut Vec<Item>,
    memory: &Data,
    register: u8,
    offset: Option<Place>,
) -> Result<u8, Memory>
    requires register { register < 32 }
    requires offset { All IsRegister (option_to_list offset) }
    ensures code { OnOk result (code.new.items ≡ code.old.items ++ singles (offset_code frame.now memory.now register offset)) }
    ensures register { IfOk result (λ r. r ≡ offset_register frame.now memory.now register offset) }
    ensures small { IfOk result (λ r. r < 32) }
{
    match offset {
        None => Ok(register),
        Some(place) => {
            emit_fetch(frame, code, SECOND_FREE, place)?;
            let right = place_register(frame, SECOND_FREE, place);
            emit(code, add_registers(FIRST_FREE, register, right))?;
            Ok(FIRST_FREE)
        }
    }
}

/// A displacement is added to a register, but for its low part, where that alone isn't all; where the sum is.
fn emit_far(
    frame: &Frame,
    code: &mut Vec<Item>,
    memory: &Data,
    register: u8,
    displacement: u32,
) -> Result<u8, Memory>
    requires { register < 32 }
    ensures code { OnOk result (code.new.items ≡ code.old.items ++ singles (far_code frame.now memory.now (is_short displacement) register displacement)) }
    ensures register { IfOk result (λ r. r ≡ far_register frame.now memory.now (is_short displacement) register) }
    ensures small { IfOk result (λ r. r < 32) }
{
    if is_short(displacement) {
        return Ok(register);
    }
    emit(code, load_upper(SECOND_FREE, u64::from(displacement)))?;
    emit(code, add_registers(FIRST_FREE, register, SECOND_FREE))?;
    Ok(FIRST_FREE)
}

fn emit_in_object(
    frame: &Frame,
    code: &mut Vec<Item>,
    memory: &Data,
    at: u64,
    offset: Option<Place>,
) -> Result<Reached, Memory>
    requires at { at < 2 ^ 32 }
    requires offset { All IsRegister (option_to_list offset) }
    ensures code { OnOk result (code.new.items ≡ code.old.items ++ singles (object_code memory.now.second 5 at ++ offset_code frame.now memory.now (object_register memory.now.second 5 at) offset)) }
    ensures register { IfOk result (λ r. r.register ≡ offset_register frame.now memory.now (object_register memory.now.second 5 at) offset) }
    ensures offset { IfOk result (λ r. r.offset ≡ object_offset memory.now.second at) }
    ensures small { IfOk result (λ r. r.register < 32) }
    ensures short { IfOk result (λ r. is_within (2 ^ 11) r.offset ≡ true) }
{
    let second = memory.second();
    emit_object(code, second, FIRST_FREE, at)?;
    let base = object_register(second, FIRST_FREE, at);
    let register = emit_offset(frame, code, memory, base, offset)?;
    Ok(Reached {
        register,
        offset: object_offset(second, at),
    })
}

fn emit_from_pointer(
    frame: &Frame,
    code: &mut Vec<Item>,
    memory: &Data,
    place: Place,
    address: PlacedAddress,
) -> Result<Reached, Memory>
    requires place { IsRegister place }
    requires offset { All IsRegister (option_to_list address.offset) }
    ensures code { OnOk result (code.new.items ≡ code.old.items ++ singles (pointer_code frame.now memory.now place address.offset address.displacement)) }
    ensures register { IfOk result (λ r. r.register ≡ pointer_register frame.now memory.now place address.offset address.displacement) }
    ensures offset { IfOk result (λ r. r.offset ≡ lower_of address.displacement) }
    ensures small { IfOk result (λ r. r.register < 32) }
    ensures short { IfOk result (λ r. is_within (2 ^ 11) r.offset ≡ true) }
{
    emit_fetch(frame, code, FIRST_FREE, place)?;
    let pointer = place_register(frame, FIRST_FREE, place);
    let sum = emit_offset(frame, code, memory, pointer, address.offset)?;
    let register = emit_far(frame, code, memory, sum, address.displacement)?;
    Ok(Reached {
        register,
        offset: lower_of(u64::from(address.displacement)),
    })
}

/// An address comes into a register, but for what an access adds.
pub fn emit_address(
    frame: &Frame,
    code: &mut Vec<Item>,
    memory: &Data,
    address: PlacedAddress,
) -> Result<Reached, Memory>
    requires { InAddress (address_of address) }
    ensures code { OnOk result (code.new.items ≡ code.old.items ++ singles (address_code frame.now memory.now (address_of address))) }
    ensures register { IfOk result (λ r. r.register ≡ address_register frame.now memory.now (address_of address)) }
    ensures offset { IfOk result (λ r. r.offset ≡ address_offset frame.now memory.now (address_of address)) }
    ensures small { IfOk result (λ r. r.register < 32) }
    ensures short { IfOk result (λ r. is_within (2 ^ 11) r.offset ≡ true) }
{
    match address.base {
        PlacedBase::Object(object) => {
            let at = address_in(memory, object, address.displacement);
            emit_in_object(frame, code, memory, at, address.offset)
        }
        PlacedBase::Pointer { place, .. } => emit_from_pointer(frame, code, memory, place, address),
    }
}
