// The code of instructions without calls.
ghost use Rattle.std.specs.Prelude.{◌≡◌, ◌<◌, ◌^◌, ◌++◌, ◌∷◌, [], true, None, OnOk};
ghost use Rattle.rv_core.specs.Instructions.{instruction, addi, is_within};
ghost use Rattle.asm_program.specs.Operands.{place_register, operand_register, operand_code, result_code};
ghost use Rattle.asm_program.specs.Emission.{load_op, store_op, set_code, operate_by, immediate_of, plain_code};
ghost use Rattle.asm_program.specs.Functions.{singles};
ghost use Rattle.asm_program.specs.Ranges.{IsRegister, InOperand, InPlain};
ghost use Rattle.asm_emission.specs.View.{operand_of, plain_of};
ghost use Rattle.asm_emission.specs.Fitting.{FormFits};

use super::addresses::{Reached, emit_address};
use super::numbers::{FIRST_FREE, RESULT, SECOND_FREE, SERVICE, machine_register};
use super::operands::{
    emit_into, emit_operand, emit_put, emit_result, operand_register, place_register,
};
use super::operators::{immediate_of, operate, operate_by, read, write};
use super::placed::{PlacedOperand, PlacedPlain};
use super::words::{add_number, emit, emit_store};
use asm_data::{Data, Frame};
use asm_items::Item;
use low_ir::Place;
use low_ir::object::Kind;
use rv_core::{Alu, Instr, Op};
use wcc_base::Memory;

fn emit_set(
    frame: &Frame,
    code: &mut Vec<Item>,
    into: Place,
    value: PlacedOperand,
) -> Result<(), Memory>
    requires into { IsRegister into }
    requires value { InOperand (operand_of value) }
    ensures { OnOk result (code.new.items ≡ code.old.items ++ singles (set_code frame.now into (operand_of value))) }
{
    match into {
        Place::Register(register) => emit_into(frame, code, machine_register(register), value),
        Place::Slot(slot) => {
            emit_operand(frame, code, FIRST_FREE, value)?;
            let register = operand_register(frame, FIRST_FREE, value);
            emit_store(code, SECOND_FREE, register, frame.slot_at(slot))
        }
    }
}

fn emit_with_constant(
    frame: &Frame,
    code: &mut Vec<Item>,
    form: (Op, i32),
    into: Place,
    left: PlacedOperand,
) -> Result<(), Memory>
    requires form { FormFits (Some form) }
    requires into { IsRegister into }
    requires left { InOperand (operand_of left) }
    ensures { OnOk result (code.new.items ≡ code.old.items ++ singles (operand_code frame.now 5 (operand_of left) ++ (instruction form.0 (place_register frame.now 5 into) (operand_register frame.now 5 (operand_of left)) 0 form.1 ∷ result_code frame.now 5 6 into))) }
{
    emit_operand(frame, code, FIRST_FREE, left)?;
    let rd = place_register(frame, FIRST_FREE, into);
    emit(
        code,
        operate_by(form, rd, operand_register(frame, FIRST_FREE, left)),
    )?;
    emit_result(frame, code, FIRST_FREE, SECOND_FREE, into)
}

fn emit_with_register(
    frame: &Frame,
    code: &mut Vec<Item>,
    operator: Alu,
    into: Place,
    operands: (PlacedOperand, PlacedOperand),
) -> Result<(), Memory>
    requires into { IsRegister into }
    requires left { InOperand (operand_of operands.0) }
    requires right { InOperand (operand_of operands.1) }
    ensures { OnOk result (code.new.items ≡ code.old.items ++ singles (operate_by frame.now None operator into (operand_of operands.0) (operand_of operands.1))) }
{
    let (left, right) = operands;
    emit_operand(frame, code, FIRST_FREE, left)?;
    emit_operand(frame, code, SECOND_FREE, right)?;
    let rd = place_register(frame, FIRST_FREE, into);
    let first = operand_register(frame, FIRST_FREE, left);
    let second = operand_register(frame, SECOND_FREE, right);
    emit(code, operate(operator, rd, first, second))?;
    emit_result(frame, code, FIRST_FREE, SECOND_FREE, into)
}

fn emit_operate(
    frame: &Frame,
    code: &mut Vec<Item>,
    operator: Alu,
    into: Place,
    operands: (PlacedOperand, PlacedOperand),
) -> Result<(), Memory>
    requires into { IsRegister into }
    requires left { InOperand (operand_of operands.0) }
    requires right { InOperand (operand_of operands.1) }
    ensures { OnOk result (code.new.items ≡ code.old.items ++ singles (operate_by frame.now (immediate_of operator (operand_of operands.1)) operator into (operand_of operands.0) (operand_of operands.1))) }
{
    match immediate_of(operator, operands.1) {
        Some(form) => emit_with_constant(frame, code, form, into, operands.0),
        None => emit_with_register(frame, code, operator, into, operands),
    }
}

fn emit_point(frame: &Frame, code: &mut Vec<Item>, into: Place, to: Reached) -> Result<(), Memory>
    requires into { IsRegister into }
    requires register { to.register < 32 }
    requires offset { is_within (2 ^ 11) to.offset ≡ true }
    ensures { OnOk result (code.new.items ≡ code.old.items ++ singles (addi (place_register frame.now 5 into) to.register to.offset ∷ result_code frame.now 5 6 into)) }
{
    let rd = place_register(frame, FIRST_FREE, into);
    emit(code, add_number(rd, to.register, to.offset))?;
    emit_result(frame, code, FIRST_FREE, SECOND_FREE, into)
}

fn emit_read(
    frame: &Frame,
    code: &mut Vec<Item>,
    kind: Kind,
    into: Place,
    from: Reached,
) -> Result<(), Memory>
    requires into { IsRegister into }
    requires register { from.register < 32 }
    requires offset { is_within (2 ^ 11) from.offset ≡ true }
    ensures { OnOk result (code.new.items ≡ code.old.items ++ singles (instruction (load_op kind) (place_register frame.now 5 into) from.register 0 from.offset ∷ result_code frame.now 5 6 into)) }
{
    let rd = place_register(frame, FIRST_FREE, into);
    emit(code, read(kind, rd, from.register, from.offset))?;
    emit_result(frame, code, FIRST_FREE, SECOND_FREE, into)
}

fn emit_write(
    frame: &Frame,
    code: &mut Vec<Item>,
    kind: Kind,
    to: Reached,
    value: PlacedOperand,
) -> Result<(), Memory>
    requires register { to.register < 32 }
    requires offset { is_within (2 ^ 11) to.offset ≡ true }
    requires value { InOperand (operand_of value) }
    ensures { OnOk result (code.new.items ≡ code.old.items ++ singles (operand_code frame.now 6 (operand_of value) ++ (instruction (store_op kind) 0 to.register (operand_register frame.now 6 (operand_of value)) to.offset ∷ []))) }
{
    emit_operand(frame, code, SECOND_FREE, value)?;
    let register = operand_register(frame, SECOND_FREE, value);
    emit(code, write(kind, to.register, register, to.offset))?;
    Ok(())
}

/// The code of an instruction without calls.
pub fn emit_plain(
    frame: &Frame,
    code: &mut Vec<Item>,
    memory: &Data,
    instr: PlacedPlain,
) -> Result<(), Memory>
    requires { InPlain (plain_of instr) }
    ensures { OnOk result (code.new.items ≡ code.old.items ++ singles (plain_code frame.now memory.now (plain_of instr))) }
{
    match instr {
        PlacedPlain::Set { into, value } => emit_set(frame, code, into, value),
        PlacedPlain::Operate {
            operator,
            into,
            left,
            right,
        } => emit_operate(frame, code, operator, into, (left, right)),
        PlacedPlain::Point { into, address } => {
            let to = emit_address(frame, code, memory, address)?;
            emit_point(frame, code, into, to)
        }
        PlacedPlain::Load {
            kind,
            into,
            address,
        } => {
            let from = emit_address(frame, code, memory, address)?;
            emit_read(frame, code, kind, into, from)
        }
        PlacedPlain::Store {
            kind,
            address,
            value,
        } => {
            let to = emit_address(frame, code, memory, address)?;
            emit_write(frame, code, kind, to, value)
        }
        PlacedPlain::Put { value } => {
            emit_into(frame, code, RESULT, value)?;
            emit(code, add_number(SERVICE, 0, 2))?;
            emit(code, Instr::ecall())
        }
        PlacedPlain::Get { into } => {
            emit(code, add_number(SERVICE, 0, 1))?;
            emit(code, Instr::ecall())?;
            emit_put(frame, code, RESULT, into)
        }
    }
}
