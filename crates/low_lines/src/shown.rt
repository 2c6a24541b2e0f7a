// Lines that have functions.
use low_ir::instruction::{Address, Base};
use low_ir::{Block, End, Function, Instr, Loop, Operand};
use std::alloc::Global;
use wcc_base::Memory;

fn operand_shown(alloc: Global, operand: Operand) -> Result<String, Memory> {
    match operand {
        Operand::Register(register) => Ok(format!(in alloc; "r{register}")?),
        Operand::Constant(word) => Ok(format!(in alloc; "{word}")?),
    }
}

fn base_shown(alloc: Global, base: Base) -> Result<String, Memory> {
    match base {
        Base::Object(_) => Ok(format!(in alloc; "o")?),
        Base::Pointer { register, .. } => Ok(format!(in alloc; "r{register}")?),
    }
}

/// A register, if there is one.
fn register_shown(alloc: Global, register: Option<u32>) -> Result<String, Memory> {
    match register {
        None => Ok(format!(in alloc; "-")?),
        Some(register) => Ok(format!(in alloc; "r{register}")?),
    }
}

fn address_shown(alloc: Global, address: Address) -> Result<String, Memory> {
    let base = base_shown(alloc, address.base)?;
    let offset = register_shown(alloc, address.offset)?;
    Ok(format!(in alloc; "{base} {offset}")?)
}

fn set_shown(alloc: Global, into: u32, value: Operand) -> Result<String, Memory> {
    let value = operand_shown(alloc, value)?;
    Ok(format!(in alloc; "set r{into} {value}")?)
}

fn sum_shown(alloc: Global, into: u32, left: Operand, right: Operand) -> Result<String, Memory> {
    let left = operand_shown(alloc, left)?;
    let right = operand_shown(alloc, right)?;
    Ok(format!(in alloc; "sum r{into} {left} {right}")?)
}

fn point_shown(alloc: Global, into: u32, address: Address) -> Result<String, Memory> {
    let address = address_shown(alloc, address)?;
    Ok(format!(in alloc; "point r{into} {address}")?)
}

fn load_shown(alloc: Global, into: u32, address: Address) -> Result<String, Memory> {
    let address = address_shown(alloc, address)?;
    Ok(format!(in alloc; "load r{into} {address}")?)
}

fn store_shown(alloc: Global, address: Address, value: Operand) -> Result<String, Memory> {
    let address = address_shown(alloc, address)?;
    let value = operand_shown(alloc, value)?;
    Ok(format!(in alloc; "store {address} {value}")?)
}

fn put_shown(alloc: Global, value: Operand) -> Result<String, Memory> {
    let value = operand_shown(alloc, value)?;
    Ok(format!(in alloc; "put {value}")?)
}

fn call_shown(
    alloc: Global,
    function: u32,
    into: Option<u32>,
    arguments: &[Operand],
) -> Result<String, Memory> {
    let into = register_shown(alloc, into)?;
    let mut shown = format!(in alloc; "call {function} {into}")?;
    for argument in arguments {
        let word = operand_shown(alloc, *argument)?;
        shown.push(' ')?;
        shown.push_str(word.as_str())?;
    }
    Ok(shown)
}

fn instr_shown(alloc: Global, instr: &Instr) -> Result<String, Memory> {
    match instr {
        Instr::Set { into, value } => set_shown(alloc, *into, *value),
        Instr::Operate {
            into,
            left,
            right,
            ..
        } => sum_shown(alloc, *into, *left, *right),
        Instr::Point { into, address } => point_shown(alloc, *into, *address),
        Instr::Load { into, address, .. } => load_shown(alloc, *into, *address),
        Instr::Store { address, value, .. } => store_shown(alloc, *address, *value),
        Instr::Put { value } => put_shown(alloc, *value),
        Instr::Get { into } => Ok(format!(in alloc; "get r{into}")?),
        Instr::Call {
            function,
            arguments,
            into,
        } => call_shown(alloc, *function, *into, arguments),
    }
}

fn branch_shown(
    alloc: Global,
    left: Operand,
    right: Operand,
    taken: u32,
    other: u32,
) -> Result<String, Memory> {
    let left = operand_shown(alloc, left)?;
    let right = operand_shown(alloc, right)?;
    Ok(format!(in alloc; "branch {left} {right} {taken} {other}")?)
}

fn return_shown(alloc: Global, value: Operand) -> Result<String, Memory> {
    let value = operand_shown(alloc, value)?;
    Ok(format!(in alloc; "return {value}")?)
}

fn end_shown(alloc: Global, end: End) -> Result<String, Memory> {
    match end {
        End::Jump { block } => Ok(format!(in alloc; "jump {block}")?),
        End::Branch {
            left,
            right,
            taken,
            other,
            ..
        } => branch_shown(alloc, left, right, taken, other),
        End::Return { value } => return_shown(alloc, value),
    }
}

fn put_block(alloc: Global, shown: &mut String, block: &Block) -> Result<(), Memory> {
    for instr in &block.code {
        let part = instr_shown(alloc, instr)?;
        shown.push_str(part.as_str())?;
        shown.push_str(", ")?;
    }
    let end = end_shown(alloc, block.end)?;
    shown.push_str(end.as_str())?;
    Ok(())
}

fn put_parameters(alloc: Global, shown: &mut String, parameters: &[u32]) -> Result<(), Memory> {
    if parameters.is_empty() {
        shown.push_str(" none")?;
    }
    for parameter in parameters {
        let word = format!(in alloc; " r{parameter}")?;
        shown.push_str(word.as_str())?;
    }
    Ok(())
}

/// The latch of the loop of which a block is the header, if it is one.
fn put_loop(alloc: Global, shown: &mut String, loops: &[Loop], header: u32) -> Result<(), Memory> {
    for each in loops {
        if each.header == header {
            let part = format!(in alloc; "loop {}, ", each.latch)?;
            shown.push_str(part.as_str())?;
        }
    }
    Ok(())
}

/// The line of a function.
pub fn function_shown(alloc: Global, function: &Function) -> Result<String, Memory> {
    let mut shown = format!(in alloc; "{};", function.registers)?;
    put_parameters(alloc, &mut shown, &function.parameters)?;
    let mut header = 0u32;
    for block in &function.blocks {
        shown.push_str("; ")?;
        put_loop(alloc, &mut shown, &function.loops, header)?;
        put_block(alloc, &mut shown, block)?;
        header = header.wrapping_add(1);
    }
    Ok(shown)
}
