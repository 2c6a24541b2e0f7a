// Registers that can have the result register: while they live, nothing else comes into it.
ghost use Rattle.std.specs.Prelude.{◌≡◌, ◌++◌, true, map, IfOk, OnOk};
ghost use Rattle.low_ir.specs.Effects.{is_member};
ghost use Rattle.low_ir.specs.View.{function_of, instr_of};
ghost use Rattle.register_allocation.specs.Briefs.{AreOwn, AreOwnBefore, IsBrief, blocks_turns, code_turns, instr_turn, is_own, turn_at};

use super::masks::names;
use super::order::Lasting;
use low_ir::Function;
use low_ir::instruction::Instr;
use std::alloc::Global;
use wcc_base::Memory;

/// What a place of the code does to the result register: it leaves it as it is, or it takes it for its own value, which goes to a
/// register, if it is wanted.
#[derive(Clone, Copy)]
pub enum Turn {
    Stays,
    Comes(Option<u32>),
}

fn turn_of(instr: &Instr) -> Turn
    ensures { result ≡ instr_turn (instr_of instr.now) }
{
    match instr {
        Instr::Set { .. } => Turn::Stays,
        Instr::Operate { .. } => Turn::Stays,
        Instr::Point { .. } => Turn::Stays,
        Instr::Load { .. } => Turn::Stays,
        Instr::Store { .. } => Turn::Stays,
        Instr::Put { .. } => Turn::Comes(None),
        Instr::Get { into } => Turn::Comes(Some(*into)),
        Instr::Call { into, .. } => Turn::Comes(*into),
    }
}

fn put_code(turns: &mut Vec<Turn>, code: &[Instr]) -> Result<(), Memory>
    ensures { OnOk result (turns.new.items ≡ turns.old.items ++ code_turns (map instr_of code.now)) }
{
    for instr in code {
        turns.push(turn_of(instr))?;
    }
    turns.push(Turn::Stays)?;
    Ok(())
}

/// What the places of a function's code do.
pub fn turns(alloc: Global, function: &Function) -> Result<Vec<Turn>, Memory>
    ensures { IfOk result (λ turns. turns.items ≡ blocks_turns (function_of function.now).blocks) }
{
    let mut turns = Vec::new(alloc);
    for block in &function.blocks {
        put_code(&mut turns, &block.code)?;
    }
    Ok(turns)
}

fn turn_at(turns: &[Turn], at: usize) -> Turn
    ensures { result ≡ turn_at turns.now at }
{
    match turns.get(at) {
        None => Turn::Stays,
        Some(turn) => *turn,
    }
}

fn is_own(turns: &[Turn], register: u32, at: usize) -> bool
    ensures { result ≡ is_own register (turn_at turns.now at) }
{
    match turn_at(turns, at) {
        Turn::Stays => true,
        Turn::Comes(into) => names(into, register),
    }
}

fn are_own_before(turns: &[Turn], each: Lasting) -> bool
    ensures { result ≡ true → AreOwnBefore turns.now each each.last }
{
    for at in each.first..each.last {
        if !is_own(turns, each.register, at) {
            return false;
        }
    }
    true
}

fn are_own(turns: &[Turn], each: Lasting) -> bool
    ensures { result ≡ true → AreOwn turns.now each }
{
    if !is_own(turns, each.register, each.last) {
        return false;
    }
    are_own_before(turns, each)
}

fn is_among(registers: &[u32], register: u32) -> bool
    ensures { result ≡ is_member registers.now register }
{
    for each in registers {
        if *each == register {
            return true;
        }
    }
    false
}

/// Whether a register can have the result register.
pub fn is_brief(function: &Function, turns: &[Turn], each: Lasting) -> bool
    requires { turns.now ≡ blocks_turns (function_of function.now).blocks }
    ensures { result ≡ true → IsBrief (function_of function.now) each }
{
    if is_among(&function.parameters, each.register) {
        return false;
    }
    are_own(turns, each)
}
