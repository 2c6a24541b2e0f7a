// What stays as it is, written anew.
ghost use Rattle.std.specs.Prelude.{◌≡◌, map, IfOk};
ghost use Rattle.low_ir.specs.View.{block_of, instr_of};

use low_ir::{Block, Instr, Loop, Operand};
use std::alloc::Global;
use wcc_base::Memory;

fn same_operands(alloc: Global, operands: &[Operand]) -> Result<Vec<Operand>, Memory>
    ensures { IfOk result (λ same. same.items ≡ operands.now) }
{
    let mut same = Vec::new(alloc);
    for operand in operands {
        same.push(*operand)?;
    }
    Ok(same)
}

/// The same registers.
pub fn same_registers(alloc: Global, registers: &[u32]) -> Result<Vec<u32>, Memory>
    ensures { IfOk result (λ same. same.items ≡ registers.now) }
{
    let mut same = Vec::new(alloc);
    for register in registers {
        same.push(*register)?;
    }
    Ok(same)
}

/// The same loops.
pub fn same_loops(alloc: Global, loops: &[Loop]) -> Result<Vec<Loop>, Memory>
    ensures { IfOk result (λ same. same.items ≡ loops.now) }
{
    let mut same = Vec::new(alloc);
    for each in loops {
        same.push(*each)?;
    }
    Ok(same)
}

/// The same instruction.
pub fn same_instr(alloc: Global, instr: &Instr) -> Result<Instr, Memory>
    ensures { IfOk result (λ j. instr_of j ≡ instr_of instr.now) }
{
    match instr {
        Instr::Set { into, value } => Ok(Instr::Set {
            into: *into,
            value: *value,
        }),
        Instr::Operate {
            operator,
            into,
            left,
            right,
        } => Ok(Instr::Operate {
            operator: *operator,
            into: *into,
            left: *left,
            right: *right,
        }),
        Instr::Point { into, address } => Ok(Instr::Point {
            into: *into,
            address: *address,
        }),
        Instr::Load {
            kind,
            into,
            address,
        } => Ok(Instr::Load {
            kind: *kind,
            into: *into,
            address: *address,
        }),
        Instr::Store {
            kind,
            address,
            value,
        } => Ok(Instr::Store {
            kind: *kind,
            address: *address,
            value: *value,
        }),
        Instr::Put { value } => Ok(Instr::Put { value: *value }),
        Instr::Get { into } => Ok(Instr::Get { into: *into }),
        Instr::Call {
            function,
            arguments,
            into,
        } => Ok(Instr::Call {
            function: *function,
            arguments: same_operands(alloc, arguments)?,
            into: *into,
        }),
    }
}

/// The same instructions.
pub fn same_code(alloc: Global, code: &[Instr]) -> Result<Vec<Instr>, Memory>
    ensures { IfOk result (λ same. map instr_of same.items ≡ map instr_of code.now) }
{
    let mut same = Vec::new(alloc);
    for instr in code {
        same.push(same_instr(alloc, instr)?)?;
    }
    Ok(same)
}

/// The same block.
pub fn same_block(alloc: Global, block: &Block) -> Result<Block, Memory>
    ensures { IfOk result (λ b. block_of b ≡ block_of block.now) }
{
    Ok(Block {
        mark: block.mark,
        code: same_code(alloc, &block.code)?,
        end: block.end,
    })
}

/// The same blocks.
pub fn same_blocks(alloc: Global, blocks: &[Block]) -> Result<Vec<Block>, Memory>
    ensures { IfOk result (λ same. map block_of same.items ≡ map block_of blocks.now) }
{
    let mut same = Vec::new(alloc);
    for block in blocks {
        same.push(same_block(alloc, block)?)?;
    }
    Ok(same)
}
