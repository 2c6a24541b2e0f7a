// The code before and behind a call.
ghost use Rattle.std.specs.Prelude.{◌≡◌, ◌<◌, ◌≤◌, ◌^◌, ◌++◌, ◌∷◌, [], All, length, map, IfOk, OnOk};
ghost use Rattle.std.specs.Option.{option_to_list};
ghost use Rattle.low_ir.specs.Effects.{is_member};
ghost use Rattle.low_ir.specs.Places.{machine_registers, registers_of};
ghost use Rattle.asm_program.specs.Emission.{reads_register, registers_among, is_once, kept_among, home_code, return_code, pass_code, late_code, value_code};
ghost use Rattle.asm_program.specs.Functions.{singles};
ghost use Rattle.asm_program.specs.Ranges.{IsLasting, IsRegister, InOperand};
ghost use Rattle.asm_emission.specs.View.{operand_of};
ghost use Rattle.asm_emission.specs.Passing.{is_in, goes_at_once, argument_code, passed_code, loaded_code};

use super::numbers::{FIRST_FREE, RESULT, SECOND_FREE, machine_register};
use super::operands::{emit_into, emit_operand, emit_put, operand_register};
use super::placed::PlacedOperand;
use super::words::{emit_load, emit_store};
use asm_data::Frame;
use asm_items::Item;
use low_ir::Place;
use std::alloc::Global;
use wcc_base::Memory;

/// Whether a place is this register.
fn is_in(register: u8, place: Place) -> bool
    ensures { result ≡ is_in register place }
{
    match place {
        Place::Register(other) => other == register,
        Place::Slot(_) => false,
    }
}

/// Whether operands read a register.
fn reads_register(register: u8, operands: &[PlacedOperand]) -> bool
    ensures { result ≡ reads_register register (map operand_of operands.now) }
{
    for operand in operands {
        if let PlacedOperand::At(Place::Register(other)) = operand {
            if register == *other {
                return true;
            }
        }
    }
    false
}

/// Whether a register is one of places.
fn holds(places: &[Place], register: u8) -> bool
    ensures { result ≡ is_member (registers_among places.now) register }
{
    for place in places {
        if is_in(register, *place) {
            return true;
        }
    }
    false
}

/// Whether a register is one of places, and only once.
fn is_once(register: u8, places: &[Place]) -> bool
    ensures { result ≡ is_once register (registers_among places.now) }
{
    for (index, place) in places.iter().enumerate() {
        if is_in(register, *place) {
            return !holds(&places[index + 1..], register);
        }
    }
    false
}

/// Whether an argument goes into its register at once, where the call passes its arguments in these places.
fn goes_at_once(places: &[Place], place: Place, later: &[PlacedOperand]) -> bool
    ensures { result ≡ goes_at_once places.now place (map operand_of later.now) }
{
    match place {
        Place::Register(register) => {
            !reads_register(register, later) && is_once(register, places)
        }
        Place::Slot(_) => false,
    }
}

/// Registers go to their words in the frame.
pub fn emit_homes(frame: &Frame, code: &mut Vec<Item>, registers: &[u8]) -> Result<(), Memory>
    requires { All (λ q. q < 24) registers.now }
    ensures { OnOk result (code.new.items ≡ code.old.items ++ singles (home_code frame.now registers.now)) }
{
    for register in registers {
        let home = frame.home_at(*register);
        emit_store(code, FIRST_FREE, machine_register(*register), home)?;
    }
    Ok(())
}

/// And come back.
pub fn emit_returns(frame: &Frame, code: &mut Vec<Item>, registers: &[u8]) -> Result<(), Memory>
    requires { All (λ q. q < 24) registers.now }
    ensures { OnOk result (code.new.items ≡ code.old.items ++ singles (return_code frame.now registers.now)) }
{
    for register in registers {
        let home = frame.home_at(*register);
        emit_load(code, machine_register(*register), home)?;
    }
    Ok(())
}

/// An argument goes to a word.
fn emit_argument(
    frame: &Frame,
    code: &mut Vec<Item>,
    argument: PlacedOperand,
    address: u64,
) -> Result<(), Memory>
    requires argument { InOperand (operand_of argument) }
    requires address { address < 2 ^ 36 }
    ensures { OnOk result (code.new.items ≡ code.old.items ++ singles (argument_code frame.now frame.now (operand_of argument) address)) }
{
    emit_operand(frame, code, FIRST_FREE, argument)?;
    let register = operand_register(frame, FIRST_FREE, argument);
    emit_store(code, SECOND_FREE, register, address)
}

/// An argument goes to its register, or to a word of the frame of the function that is called.
fn emit_passed(
    frame: &Frame,
    code: &mut Vec<Item>,
    callee: &Frame,
    direct: bool,
    passed: (PlacedOperand, Place),
) -> Result<(), Memory>
    requires argument { InOperand (operand_of passed.0) }
    requires place { IsLasting passed.1 }
    ensures { OnOk result (code.new.items ≡ code.old.items ++ singles (passed_code frame.now callee.now direct (operand_of passed.0) passed.1)) }
{
    let (argument, place) = passed;
    match place {
        Place::Register(register) => {
            if direct {
                return emit_into(frame, code, machine_register(register), argument);
            }
            emit_argument(frame, code, argument, callee.home_at(register))
        }
        Place::Slot(slot) => emit_argument(frame, code, argument, callee.slot_at(slot)),
    }
}

/// An argument in a word of its register comes into that.
fn emit_loaded(
    frame: &Frame,
    code: &mut Vec<Item>,
    callee: &Frame,
    direct: bool,
    place: Place,
) -> Result<(), Memory>
    requires { IsLasting place }
    ensures { OnOk result (code.new.items ≡ code.old.items ++ singles (loaded_code frame.now callee.now direct place)) }
{
    match place {
        Place::Register(register) => {
            if direct {
                return Ok(());
            }
            emit_load(code, machine_register(register), callee.home_at(register))
        }
        Place::Slot(_) => Ok(()),
    }
}

/// Arguments go to the function that is called.
pub fn emit_pass(
    frame: &Frame,
    code: &mut Vec<Item>,
    callee: &Frame,
    arguments: &[PlacedOperand],
    places: &[Place],
) -> Result<(), Memory>
    requires arguments { All InOperand (map operand_of arguments.now) }
    requires places { All IsLasting places.now }
    requires few { length places.now ≤ length arguments.now }
    ensures { OnOk result (code.new.items ≡ code.old.items ++ singles (pass_code frame.now callee.now places.now (map operand_of arguments.now) places.now)) }
{
    for (index, place) in places.iter().enumerate() {
        let direct = goes_at_once(places, *place, &arguments[index + 1..]);
        emit_passed(frame, code, callee, direct, (arguments[index], *place))?;
    }
    Ok(())
}

/// Those that had to wait in a word come into their registers.
pub fn emit_late(
    frame: &Frame,
    code: &mut Vec<Item>,
    callee: &Frame,
    arguments: &[PlacedOperand],
    places: &[Place],
) -> Result<(), Memory>
    requires places { All IsLasting places.now }
    requires few { length places.now ≤ length arguments.now }
    ensures { OnOk result (code.new.items ≡ code.old.items ++ singles (late_code frame.now callee.now places.now (map operand_of arguments.now) places.now)) }
{
    for (index, place) in places.iter().enumerate() {
        let direct = goes_at_once(places, *place, &arguments[index + 1..]);
        emit_loaded(frame, code, callee, direct, *place)?;
    }
    Ok(())
}

/// The value of a call goes to its place, if it is wanted.
pub fn emit_value(frame: &Frame, code: &mut Vec<Item>, into: Option<Place>) -> Result<(), Memory>
    requires { All IsRegister (option_to_list into) }
    ensures { OnOk result (code.new.items ≡ code.old.items ++ singles (value_code frame.now into)) }
{
    match into {
        None => Ok(()),
        Some(place) => emit_put(frame, code, RESULT, place),
    }
}

/// Whether a register is one of those of a mask, register q by the bit of value 2^q.
fn is_kept(mask: u32, register: u8) -> bool
    requires { register < 24 }
    ensures { result ≡ is_member (registers_of machine_registers mask) register }
{
    (mask >> u32::from(register)) % 2 == 1
}

fn put_kept(kept: &mut Vec<u8>, mask: u32, place: Place) -> Result<(), Memory>
    requires { IsLasting place }
    ensures { OnOk result (kept.new.items ≡ kept.old.items ++ kept_among (place ∷ []) (registers_of machine_registers mask)) }
{
    match place {
        Place::Register(register) => {
            if is_kept(mask, register) {
                kept.push(register)?;
                return Ok(());
            }
            Ok(())
        }
        Place::Slot(_) => Ok(()),
    }
}

/// The registers in which a call passes arguments, and that it keeps, which are those of a mask.
pub fn kept_among(alloc: Global, mask: u32, places: &[Place]) -> Result<Vec<u8>, Memory>
    requires { All IsLasting places.now }
    ensures value { IfOk result (λ kept. kept.items ≡ kept_among places.now (registers_of machine_registers mask)) }
    ensures below { IfOk result (λ kept. All (λ q. q < 24) kept.items) }
{
    let mut kept = Vec::new(alloc);
    for place in places {
        put_kept(&mut kept, mask, *place)?;
    }
    Ok(kept)
}
