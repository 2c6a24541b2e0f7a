// Blocks, as a line has them.
use crate::instructions::{call_of, end_of, instr_of};
use low_ir::{Block, End, Instr, Operand};
use std::alloc::Global;
use wcc_base::Memory;

/// One more instruction, where the text is one.
fn put_instr(alloc: Global, code: &mut Vec<Instr>, text: &str) -> Result<(), Memory> {
    if let Some(("call", rest)) = text.split_once(' ') {
        return Ok(code.push(call_of(alloc, rest)?)?);
    }
    match instr_of(text) {
        None => Ok(()),
        Some(instr) => Ok(code.push(instr)?),
    }
}

fn code_of(alloc: Global, text: &str) -> Result<Vec<Instr>, Memory> {
    let mut code = Vec::new(alloc);
    for part in text.split(", ") {
        put_instr(alloc, &mut code, part)?;
    }
    Ok(code)
}

/// How a block ends: with the last end among its parts, or else with nothing.
fn end_in(text: &str) -> End {
    let mut end = End::Return {
        value: Operand::Constant(0),
    };
    for part in text.split(", ") {
        if let Some(found) = end_of(part) {
            end = found;
        }
    }
    end
}

pub fn blocks_of(alloc: Global, text: &str) -> Result<Vec<Block>, Memory> {
    let mut blocks = Vec::new(alloc);
    for part in text.split("; ") {
        blocks.push(Block {
            mark: None,
            code: code_of(alloc, part)?,
            end: end_in(part),
        })?;
    }
    Ok(blocks)
}
