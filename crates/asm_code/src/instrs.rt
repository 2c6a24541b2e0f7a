// The items of instructions, and those with which a block ends.
ghost use Rattle.std.specs.Prelude.{◌≡◌, ◌+◌, ◌<◌, ◌^◌, ◌++◌, [], true, OnOk};
ghost use Rattle.low_ir.specs.Code.{Do};
ghost use Rattle.low_ir.specs.View.{instr_of, end_of};
ghost use Rattle.asm_program.specs.Frames.{frame_of};
ghost use Rattle.asm_program.specs.Functions.{instr_items, end_items, leave_items};
ghost use Rattle.asm_program.specs.Ranges.{InOperand, InPlain, InInstr, InEnd, InProgram};
ghost use Rattle.asm_emission.specs.View.{operand_of, plain_of};
ghost use Rattle.asm_code.specs.Ends.{branch_items, jump_to};
ghost use Rattle.asm_code.specs.Scopes.{IsScope, memory, program, placed_instr, placed_end};

use super::calls::emit_call;
use super::passing::passing_of;
use super::scope::Scope;
use asm_emission::{
    FIRST_FREE, PlacedOperand, PlacedPlain, RESULT, SECOND_FREE, emit_exit, emit_into,
    emit_operand, emit_plain, operand_register, place_address, place_of, place_operand,
};
use asm_items::{Form, Item};
use asm_writing::opposite_of;
use low_ir::{End, Instr};
use rv_core::Condition;
use std::alloc::Global;
use wcc_base::Memory;

fn emit_own(scope: &Scope<'_>, items: &mut Vec<Item>, instr: PlacedPlain) -> Result<(), Memory>
    requires scope { IsScope scope.now }
    requires there { InPlain (plain_of instr) }
    ensures { OnOk result (items.new.items ≡ items.old.items ++ instr_items (memory scope.now) (program scope.now) scope.now.number (Do (plain_of instr)) []) }
{
    emit_plain(scope.frame, items, scope.memory, instr)
}

/// The items of the instruction at a place of the code.
pub fn emit_instr(
    alloc: Global,
    scope: &Scope<'_>,
    items: &mut Vec<Item>,
    place: usize,
    instr: &Instr,
) -> Result<(), Memory>
    requires scope { IsScope scope.now }
    requires program { InProgram (program scope.now) }
    requires there { InInstr (placed_instr scope.now place (instr_of instr.now)) }
    ensures { OnOk result (items.new.items ≡ items.old.items ++ instr_items (memory scope.now) (program scope.now) scope.now.number (placed_instr scope.now place (instr_of instr.now)) []) }
{
    let places = scope.places;
    match instr {
        Instr::Set { into, value } => {
            let into = place_of(places, *into);
            let value = place_operand(places, *value);
            emit_own(scope, items, PlacedPlain::Set { into, value })
        }
        Instr::Operate {
            operator,
            into,
            left,
            right,
        } => {
            let into = place_of(places, *into);
            let left = place_operand(places, *left);
            let right = place_operand(places, *right);
            let instr = PlacedPlain::Operate {
                operator: *operator,
                into,
                left,
                right,
            };
            emit_own(scope, items, instr)
        }
        Instr::Point { into, address } => {
            let into = place_of(places, *into);
            let address = place_address(places, *address);
            emit_own(scope, items, PlacedPlain::Point { into, address })
        }
        Instr::Load {
            kind,
            into,
            address,
        } => {
            let into = place_of(places, *into);
            let address = place_address(places, *address);
            let instr = PlacedPlain::Load {
                kind: *kind,
                into,
                address,
            };
            emit_own(scope, items, instr)
        }
        Instr::Store {
            kind,
            address,
            value,
        } => {
            let address = place_address(places, *address);
            let value = place_operand(places, *value);
            let instr = PlacedPlain::Store {
                kind: *kind,
                address,
                value,
            };
            emit_own(scope, items, instr)
        }
        Instr::Put { value } => {
            let value = place_operand(places, *value);
            emit_own(scope, items, PlacedPlain::Put { value })
        }
        Instr::Get { into } => {
            let into = place_of(places, *into);
            emit_own(scope, items, PlacedPlain::Get { into })
        }
        Instr::Call {
            function,
            arguments,
            into,
        } => {
            let passing = passing_of(alloc, scope, place, *function, arguments.as_slice())?;
            emit_call(scope, items, *function, &passing, *into)?;
            Ok(())
        }
    }
}

/// A jump to a block, unless that is the next one.
fn emit_jump(items: &mut Vec<Item>, is_next: bool, block: u32) -> Result<(), Memory>
    ensures { OnOk result (items.new.items ≡ items.old.items ++ jump_to is_next block) }
{
    if is_next {
        return Ok(());
    }
    items.push(Item::Jump { far: true, block })?;
    Ok(())
}

/// The return of a function, behind its exit.
pub fn emit_return(scope: &Scope<'_>, items: &mut Vec<Item>) -> Result<(), Memory>
    requires { IsScope scope.now }
    ensures { OnOk result (items.new.items ≡ items.old.items ++ leave_items (memory scope.now) (program scope.now) scope.now.number true 0) }
{
    emit_exit(scope.frame, items, scope.leaf)?;
    items.push(Item::Return)?;
    Ok(())
}

/// What follows a value that is returned from a block.
fn emit_leave(scope: &Scope<'_>, items: &mut Vec<Item>, block: u32) -> Result<(), Memory>
    requires scope { IsScope scope.now }
    requires block { block + 1 < 2 ^ 32 }
    ensures { OnOk result (items.new.items ≡ items.old.items ++ leave_items (memory scope.now) (program scope.now) scope.now.number scope.now.at_once block) }
{
    if scope.at_once {
        return emit_return(scope, items);
    }
    emit_jump(items, scope.blocks == block + 1, scope.blocks)
}

fn emit_branch(
    scope: &Scope<'_>,
    items: &mut Vec<Item>,
    condition: Condition,
    operands: (PlacedOperand, PlacedOperand),
    taken: u32,
) -> Result<(), Memory>
    requires scope { IsScope scope.now }
    requires left { InOperand (operand_of operands.0) }
    requires right { InOperand (operand_of operands.1) }
    ensures { OnOk result (items.new.items ≡ items.old.items ++ branch_items (frame_of (memory scope.now) scope.now.number) condition (operand_of operands.0) (operand_of operands.1) taken) }
{
    let (first, second) = operands;
    emit_operand(scope.frame, items, FIRST_FREE, first)?;
    emit_operand(scope.frame, items, SECOND_FREE, second)?;
    items.push(Item::Branch {
        form: Form::Far,
        condition,
        left: operand_register(scope.frame, FIRST_FREE, first),
        right: operand_register(scope.frame, SECOND_FREE, second),
        block: taken,
    })?;
    Ok(())
}

/// The items with which a block ends.
pub fn emit_end(
    scope: &Scope<'_>,
    items: &mut Vec<Item>,
    block: u32,
    end: End,
) -> Result<(), Memory>
    requires scope { IsScope scope.now }
    requires block { block + 1 < 2 ^ 32 }
    requires there { InEnd (placed_end scope.now (end_of end)) }
    ensures { OnOk result (items.new.items ≡ items.old.items ++ end_items (memory scope.now) (program scope.now) scope.now.number block (placed_end scope.now (end_of end))) }
{
    match end {
        End::Jump { block: next } => emit_jump(items, next == block + 1, next),
        End::Branch {
            condition,
            left,
            right,
            taken,
            other,
        } => {
            let left = place_operand(scope.places, left);
            let right = place_operand(scope.places, right);
            if taken == block + 1 {
                return emit_branch(scope, items, opposite_of(condition), (left, right), other);
            }
            emit_branch(scope, items, condition, (left, right), taken)?;
            emit_jump(items, other == block + 1, other)
        }
        End::Return { value } => {
            emit_into(
                scope.frame,
                items,
                RESULT,
                place_operand(scope.places, value),
            )?;
            emit_leave(scope, items, block)
        }
    }
}
