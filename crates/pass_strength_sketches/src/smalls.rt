// Which registers of a function hold words below 2^32 alone, of those that are taken off others.
use super::acts::{Act, act_of, register_of, written};
use super::tables::{flag_at, set_flag};
use low_ir::{Block, Function, Operand};
use rv_core::Alu;
use std::alloc::Global;
use wcc_base::Memory;

/// How often copies are followed.
const SWEEPS: u32 = 4;

/// A register is taken off others.
fn mark(taken: &mut [bool], register: Option<u32>) {
    if let Some(register) = register {
        set_flag(taken, register as usize, true);
    }
}

/// Marks what an instruction takes off, or copies to a register that is.
fn mark_by(taken: &mut [bool], act: Act) {
    match act {
        Act::Operate {
            operator: Alu::Difference,
            right,
            ..
        } => mark(taken, register_of(right)),
        Act::Set { into, value } => {
            if flag_at(taken, into as usize) {
                mark(taken, register_of(value));
            }
        }
        _ => {}
    }
}

fn mark_all(taken: &mut [bool], blocks: &[Block]) {
    for block in blocks {
        for instr in &block.code {
            mark_by(taken, act_of(instr));
        }
    }
}

/// Whether an operator gives words below 2^32.
fn gives_small(operator: Alu) -> bool {
    match operator {
        Alu::Sum => true,
        Alu::Difference => true,
        Alu::Product => true,
        Alu::ShiftLeft => true,
        _ => false,
    }
}

/// Whether an operand is such a word.
pub fn is_small(smalls: &[bool], operand: Operand) -> bool {
    match operand {
        Operand::Constant(_) => true,
        Operand::Register(register) => flag_at(smalls, register as usize),
    }
}

/// The register to which an instruction writes what may be no such word.
fn spoiled(smalls: &[bool], act: Act) -> Option<u32> {
    match act {
        Act::Set { into, value } => {
            if is_small(smalls, value) {
                None
            } else {
                Some(into)
            }
        }
        Act::Operate { operator, into, .. } => {
            if gives_small(operator) {
                None
            } else {
                Some(into)
            }
        }
        _ => written(act),
    }
}

/// Takes out what may be no such word, and says whether there was any.
fn narrow(smalls: &mut [bool], blocks: &[Block]) -> bool {
    let mut changed = false;
    for block in blocks {
        for instr in &block.code {
            if let Some(into) = spoiled(smalls, act_of(instr)) {
                if flag_at(smalls, into as usize) {
                    set_flag(smalls, into as usize, false);
                    changed = true;
                }
            }
        }
    }
    changed
}

/// Whether all is found of which registers are left.
fn narrow_all(smalls: &mut [bool], blocks: &[Block]) -> bool {
    for _ in 0..SWEEPS {
        if !narrow(smalls, blocks) {
            return true;
        }
    }
    false
}

/// By register, whether it is one of them; none, where they aren't found in time.
pub fn smalls_of(alloc: Global, function: &Function) -> Result<Vec<bool>, Memory> {
    let registers = function.registers as usize;
    let mut smalls = vec![in alloc; false; registers]?;
    for _ in 0..SWEEPS {
        mark_all(&mut smalls, &function.blocks);
    }
    for parameter in &function.parameters {
        set_flag(&mut smalls, *parameter as usize, false);
    }
    if narrow_all(&mut smalls, &function.blocks) {
        Ok(smalls)
    } else {
        Ok(vec![in alloc; false; registers]?)
    }
}
