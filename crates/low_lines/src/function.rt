// Functions, as a line has them.
use crate::blocks::blocks_of;
use crate::loops::loops_of;
use crate::words::registers_of;
use low_ir::Function;
use std::alloc::Global;
use wcc_base::Memory;

fn read(alloc: Global, registers: u32, rest: &str) -> Result<Function, Memory> {
    let (parameters, code) = rest.split_once("; ").unwrap_or((rest, ""));
    Ok(Function {
        parameters: registers_of(alloc, parameters)?,
        registers,
        loops: loops_of(alloc, code)?,
        blocks: blocks_of(alloc, code)?,
    })
}

/// The function of a line, if it begins with a number of registers.
pub fn function_of(alloc: Global, line: &str) -> Result<Option<Function>, Memory> {
    let (registers, rest) = line.split_once("; ").unwrap_or((line, ""));
    match registers.parse::<u32>() {
        Err(_) => Ok(None),
        Ok(registers) => Ok(Some(read(alloc, registers, rest)?)),
    }
}
