// Registers and operands, as a line has them.
use low_ir::Operand;
use low_ir::instruction::{Address, Base};
use std::alloc::Global;
use wcc_base::Memory;

/// A register: its number behind an `r`.
pub fn register_of(word: &str) -> Option<u32> {
    match word.split_once('r') {
        Some(("", number)) => number.parse::<u32>().ok(),
        _ => None,
    }
}

/// The registers of a text; other words are passed over.
pub fn registers_of(alloc: Global, text: &str) -> Result<Vec<u32>, Memory> {
    let mut registers = Vec::new(alloc);
    for word in text.split(' ') {
        if let Some(register) = register_of(word) {
            registers.push(register)?;
        }
    }
    Ok(registers)
}

/// A register or a constant.
pub fn operand_of(word: &str) -> Option<Operand> {
    match register_of(word) {
        Some(register) => Some(Operand::Register(register)),
        None => Some(Operand::Constant(word.parse::<u32>().ok()?)),
    }
}

pub fn operands_of(alloc: Global, text: &str) -> Result<Vec<Operand>, Memory> {
    let mut operands = Vec::new(alloc);
    for word in text.split(' ') {
        if let Some(operand) = operand_of(word) {
            operands.push(operand)?;
        }
    }
    Ok(operands)
}

/// The first object or where a register points to, and so many bytes behind it as another register has, if one stands there.
pub fn address_of(base: &str, offset: &str) -> Address {
    let base = match register_of(base) {
        Some(register) => Base::Pointer { register, claim: 0 },
        None => Base::Object(0),
    };
    Address {
        base,
        offset: register_of(offset),
        displacement: 0,
    }
}
