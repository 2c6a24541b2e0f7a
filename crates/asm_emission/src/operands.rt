// Operands come into machine registers, and results go to their places.
ghost use Rattle.std.specs.Prelude.{◌≡◌, ◌<◌, ◌++◌, OnOk};
ghost use Rattle.asm_program.specs.Operands.{place_register, fetch_code, operand_register, operand_code, into_code, result_code, put_code};
ghost use Rattle.asm_program.specs.Functions.{singles};
ghost use Rattle.asm_program.specs.Ranges.{IsRegister, InOperand};
ghost use Rattle.asm_emission.specs.View.{operand_of};

use super::numbers::{FIRST_FREE, machine_register};
use super::placed::PlacedOperand;
use super::words::{emit_constant, emit_load, emit_move, emit_store};
use asm_data::Frame;
use asm_items::Item;
use low_ir::Place;
use wcc_base::Memory;

/// The register that has the value of a place, or the free one that it comes into.
pub fn place_register(frame: &Frame, free: u8, place: Place) -> u8
    requires free { free < 32 }
    requires place { IsRegister place }
    ensures value { result ≡ place_register frame.now free place }
    ensures small { result < 32 }
{
    match place {
        Place::Register(register) => machine_register(register),
        Place::Slot(_) => free,
    }
}

/// The value of a place comes into a register.
pub fn emit_fetch(frame: &Frame, code: &mut Vec<Item>, free: u8, place: Place) -> Result<(), Memory>
    requires { free < 32 }
    ensures { OnOk result (code.new.items ≡ code.old.items ++ singles (fetch_code frame.now free place)) }
{
    match place {
        Place::Register(_) => Ok(()),
        Place::Slot(slot) => emit_load(code, free, frame.slot_at(slot)),
    }
}

/// The register that has an operand, or the free one that it comes into.
pub fn operand_register(frame: &Frame, free: u8, operand: PlacedOperand) -> u8
    requires free { free < 32 }
    requires operand { InOperand (operand_of operand) }
    ensures value { result ≡ operand_register frame.now free (operand_of operand) }
    ensures small { result < 32 }
{
    match operand {
        PlacedOperand::At(place) => place_register(frame, free, place),
        PlacedOperand::Constant(word) => { if word == 0 { 0 } else { free } }
    }
}

/// An operand comes into a register, the free one if it is in none.
pub fn emit_operand(
    frame: &Frame,
    code: &mut Vec<Item>,
    free: u8,
    operand: PlacedOperand,
) -> Result<(), Memory>
    requires { free < 32 }
    ensures { OnOk result (code.new.items ≡ code.old.items ++ singles (operand_code frame.now free (operand_of operand))) }
{
    match operand {
        PlacedOperand::At(place) => emit_fetch(frame, code, free, place),
        PlacedOperand::Constant(word) => {
            if word == 0 {
                return Ok(());
            }
            emit_constant(code, free, word)
        }
    }
}

/// An operand comes into this register.
pub fn emit_into(
    frame: &Frame,
    code: &mut Vec<Item>,
    register: u8,
    operand: PlacedOperand,
) -> Result<(), Memory>
    requires register { register < 32 }
    requires operand { InOperand (operand_of operand) }
    ensures { OnOk result (code.new.items ≡ code.old.items ++ singles (into_code frame.now register (operand_of operand))) }
{
    match operand {
        PlacedOperand::At(Place::Register(from)) => {
            emit_move(code, register, machine_register(from))
        }
        PlacedOperand::At(Place::Slot(slot)) => { emit_load(code, register, frame.slot_at(slot)) }
        PlacedOperand::Constant(word) => emit_constant(code, register, word),
    }
}

/// A result in the register of its place, or in a free one, goes to its place by way of another.
pub fn emit_result(
    frame: &Frame,
    code: &mut Vec<Item>,
    free: u8,
    other: u8,
    place: Place,
) -> Result<(), Memory>
    requires free { free < 32 }
    requires other { other < 32 }
    ensures { OnOk result (code.new.items ≡ code.old.items ++ singles (result_code frame.now free other place)) }
{
    match place {
        Place::Register(_) => Ok(()),
        Place::Slot(slot) => emit_store(code, other, free, frame.slot_at(slot)),
    }
}

/// What is in a register goes to a place.
pub fn emit_put(
    frame: &Frame,
    code: &mut Vec<Item>,
    register: u8,
    place: Place,
) -> Result<(), Memory>
    requires register { register < 32 }
    requires place { IsRegister place }
    ensures { OnOk result (code.new.items ≡ code.old.items ++ singles (put_code frame.now register place)) }
{
    match place {
        Place::Register(into) => emit_move(code, machine_register(into), register),
        Place::Slot(slot) => emit_store(code, FIRST_FREE, register, frame.slot_at(slot)),
    }
}
