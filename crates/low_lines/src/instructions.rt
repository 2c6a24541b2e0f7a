// Instructions and ends of blocks, as a line has them.
use crate::words::{address_of, operand_of, operands_of, register_of};
use low_ir::object::Kind;
use low_ir::{End, Instr};
use rv_core::{Alu, Condition};
use std::alloc::Global;
use wcc_base::Memory;

fn set(text: &str) -> Option<Instr> {
    let (into, value) = text.split_once(' ')?;
    Some(Instr::Set {
        into: register_of(into)?,
        value: operand_of(value)?,
    })
}

fn sum(text: &str) -> Option<Instr> {
    let (into, rest) = text.split_once(' ')?;
    let (left, right) = rest.split_once(' ')?;
    Some(Instr::Operate {
        operator: Alu::Sum,
        into: register_of(into)?,
        left: operand_of(left)?,
        right: operand_of(right)?,
    })
}

fn point(text: &str) -> Option<Instr> {
    let (into, rest) = text.split_once(' ')?;
    let (base, offset) = rest.split_once(' ')?;
    Some(Instr::Point {
        into: register_of(into)?,
        address: address_of(base, offset),
    })
}

fn load(text: &str) -> Option<Instr> {
    let (into, rest) = text.split_once(' ')?;
    let (base, offset) = rest.split_once(' ')?;
    Some(Instr::Load {
        kind: Kind::Word,
        into: register_of(into)?,
        address: address_of(base, offset),
    })
}

fn store(text: &str) -> Option<Instr> {
    let (base, rest) = text.split_once(' ')?;
    let (offset, value) = rest.split_once(' ')?;
    Some(Instr::Store {
        kind: Kind::Word,
        address: address_of(base, offset),
        value: operand_of(value)?,
    })
}

/// An instruction, but a call.
pub fn instr_of(text: &str) -> Option<Instr> {
    match text.split_once(' ') {
        Some(("set", rest)) => set(rest),
        Some(("sum", rest)) => sum(rest),
        Some(("point", rest)) => point(rest),
        Some(("load", rest)) => load(rest),
        Some(("store", rest)) => store(rest),
        Some(("put", rest)) => Some(Instr::Put {
            value: operand_of(rest)?,
        }),
        Some(("get", rest)) => Some(Instr::Get {
            into: register_of(rest)?,
        }),
        _ => None,
    }
}

/// A call: the number of its function, where its value goes, if a register stands there, and its arguments.
pub fn call_of(alloc: Global, text: &str) -> Result<Instr, Memory> {
    let (function, rest) = text.split_once(' ').unwrap_or((text, ""));
    let (into, arguments) = rest.split_once(' ').unwrap_or((rest, ""));
    Ok(Instr::Call {
        function: function.parse::<u32>().ok().unwrap_or(0),
        arguments: operands_of(alloc, arguments)?,
        into: register_of(into),
    })
}

fn branch(text: &str) -> Option<End> {
    let (left, rest) = text.split_once(' ')?;
    let (right, blocks) = rest.split_once(' ')?;
    let (taken, other) = blocks.split_once(' ')?;
    Some(End::Branch {
        condition: Condition::Equal,
        left: operand_of(left)?,
        right: operand_of(right)?,
        taken: taken.parse::<u32>().ok()?,
        other: other.parse::<u32>().ok()?,
    })
}

pub fn end_of(text: &str) -> Option<End> {
    match text.split_once(' ') {
        Some(("jump", rest)) => Some(End::Jump {
            block: rest.parse::<u32>().ok()?,
        }),
        Some(("branch", rest)) => branch(rest),
        Some(("return", rest)) => Some(End::Return {
            value: operand_of(rest)?,
        }),
        _ => None,
    }
}
