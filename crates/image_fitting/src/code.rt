// The machine instructions that code takes at most.
ghost use Rattle.std.specs.Prelude.{◌*◌, ◌+◌, map, length, sum_by};
ghost use Rattle.low_ir.specs.Room.{instr_room, block_room, function_room};
ghost use Rattle.low_ir.specs.View.{block_of, function_of, instr_of};
ghost use Rattle.image_fitting.specs.Spending.{Spends};

use low_ir::{Block, Function, Instr, Operand};
use low_parts::rooms::{access_part, address_part, end_part};

/// Takes an amount.
pub fn spend(from: u64, amount: u64) -> Option<u64>
    ensures { Spends from amount result }
{
    if amount > from {
        return None;
    }
    Some(from - amount)
}

/// Ten for each argument.
fn spend_call(from: u64, arguments: &[Operand]) -> Option<u64>
    ensures { Spends from (4 + 10 * length arguments.now) result }
{
    let count = arguments.len() as u64;
    if from < 4 || count > (from - 4) / 10 {
        return None;
    }
    Some(from - 4 - 10 * count)
}

fn spend_instr(from: u64, instr: &Instr) -> Option<u64>
    ensures { Spends from (instr_room (instr_of instr.now)) result }
{
    match instr {
        Instr::Set { .. } => spend(from, 4),
        Instr::Operate { .. } => spend(from, 7),
        Instr::Point { address: at, .. } => spend(from, address_part(*at) + 3),
        Instr::Load { address: at, .. } => spend(from, access_part(*at) + 3),
        Instr::Store { address: at, .. } => spend(from, access_part(*at) + 3),
        Instr::Put { .. } => spend(from, 4),
        Instr::Get { .. } => spend(from, 4),
        Instr::Call { arguments, .. } => spend_call(from, arguments),
    }
}

fn spend_code(from: u64, code: &[Instr]) -> Option<u64>
    ensures { Spends from (sum_by instr_room (map instr_of code.now)) result }
{
    let mut left = from;
    for each in code {
        match spend_instr(left, each) {
            None => return None,
            Some(rest) => left = rest,
        }
    }
    Some(left)
}

fn spend_block(from: u64, block: &Block) -> Option<u64>
    ensures { Spends from (block_room (block_of block.now)) result }
{
    match spend_code(from, &block.code) {
        None => None,
        Some(left) => spend(left, end_part(block.end)),
    }
}

fn spend_blocks(from: u64, blocks: &[Block]) -> Option<u64>
    ensures { Spends from (sum_by block_room (map block_of blocks.now)) result }
{
    let mut left = from;
    for each in blocks {
        match spend_block(left, each) {
            None => return None,
            Some(rest) => left = rest,
        }
    }
    Some(left)
}

fn spend_function(from: u64, function: &Function) -> Option<u64>
    ensures { Spends from (function_room (function_of function.now)) result }
{
    match spend(from, 64) {
        None => None,
        Some(left) => spend_blocks(left, &function.blocks),
    }
}

/// Takes the room of functions.
pub fn spend_functions(from: u64, functions: &[Function]) -> Option<u64>
    ensures { Spends from (sum_by function_room (map function_of functions.now)) result }
{
    let mut left = from;
    for each in functions {
        match spend_function(left, each) {
            None => return None,
            Some(rest) => left = rest,
        }
    }
    Some(left)
}
