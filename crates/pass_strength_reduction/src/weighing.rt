// How long a program may take.
ghost use Rattle.std.specs.Prelude.{◌≡◌, ◌*◌, ◌+◌, ◌≤◌, suc, true, [], ◌∷◌, map, IfOk, IfSome};
ghost use Rattle.low_ir.specs.Room.{called, frame_room, repeated, times, weights};
ghost use Rattle.low_ir.specs.View.{block_of, function_of, instr_of, loop_of};
ghost use Rattle.pass_strength_reduction.specs.Weighing.{Bounds, block_worth, worth_in};

use low_ir::{Block, Function, Instr, Loop};
use low_parts::rooms::{block_part, times};
use std::alloc::Global;
use wcc_base::Memory;

/// The most that a call of a function may execute, by a table; of one that isn't there, to enter and to leave it.
fn worth_of(worths: &[u64], function: u32) -> u64
    ensures { result ≡ worth_in worths.now function }
{
    match worths.get(function as usize) {
        None => 64,
        Some(worth) => *worth,
    }
}

fn call_worth(worths: &[u64], instr: &Instr) -> u64
    ensures { result ≡ called (worth_in worths.now) (instr_of instr.now ∷ []) }
{
    match instr {
        Instr::Call { function, .. } => worth_of(worths, *function),
        _ => 0,
    }
}

/// What code calls, beside so much.
fn calls_part(worths: &[u64], code: &[Instr], beside: u64) -> Option<u64>
    ensures { IfSome result (λ n. n ≡ beside + called (worth_in worths.now) (map instr_of code.now)) }
{
    let mut total = beside;
    for instr in code {
        match total.checked_add(call_worth(worths, instr)) {
            None => return None,
            Some(more) => total = more,
        }
    }
    Some(total)
}

fn block_worth(worths: &[u64], block: &Block) -> Option<u64>
    ensures { IfSome result (λ n. n ≡ block_worth worths.now (block_of block.now)) }
{
    match block_part(block) {
        None => None,
        Some(own) => calls_part(worths, &block.code, own),
    }
}

fn repeated_part(worths: &[u64], loops: &[Loop], number: u32, block: &Block) -> Option<u64>
    ensures { IfSome result (λ n. n ≡ times (map loop_of loops.now) number * block_worth worths.now (block_of block.now)) }
{
    match times(loops, number) {
        None => None,
        Some(often) => match block_worth(worths, block) {
            None => None,
            Some(part) => often.checked_mul(part),
        },
    }
}

/// The machine instructions that a call of a function may execute, where those that it calls are worth so much.
fn function_worth(worths: &[u64], function: &Function) -> Option<u64>
    ensures { IfSome result (λ n. n ≡ frame_room + repeated (block_worth worths.now) (map loop_of function.now.loops.items) 0 (map block_of function.now.blocks.items)) }
{
    let mut total = 64u64;
    let mut number = 0u32;
    for block in &function.blocks {
        match repeated_part(worths, &function.loops, number, block) {
            None => return None,
            Some(part) => match total.checked_add(part) {
                None => return None,
                Some(more) => total = more,
            },
        }
        match number.checked_add(1) {
            None => return None,
            Some(next) => number = next,
        }
    }
    Some(total)
}

/// By function, what it may execute; functions call those of lower numbers.
fn worths_of(alloc: Global, functions: &[Function]) -> Result<Vec<u64>, Memory> {
    let mut worths = Vec::new(alloc);
    for function in functions {
        let worth = match function_worth(&worths, function) {
            None => u64::MAX,
            Some(worth) => worth,
        };
        worths.push(worth)?;
    }
    Ok(worths)
}

fn is_bounded(worths: &[u64], number: u32, function: &Function) -> bool
    ensures { result ≡ true → frame_room + repeated (block_worth worths.now) (map loop_of function.now.loops.items) 0 (map block_of function.now.blocks.items) ≤ worth_in worths.now number }
{
    match function_worth(worths, function) {
        None => false,
        Some(worth) => worth <= worth_of(worths, number),
    }
}

/// Whether no function executes more than a table says, if those that it calls don't.
fn are_bounded(worths: &[u64], functions: &[Function]) -> bool
    ensures { result ≡ true → Bounds worths.now (map function_of functions.now) }
{
    if worths.len() > functions.len() {
        return false;
    }
    let mut number = 0u32;
    for function in functions {
        if !is_bounded(worths, number, function) {
            return false;
        }
        match number.checked_add(1) {
            None => return false,
            Some(next) => number = next,
        }
    }
    true
}

/// The most machine instructions that a program may execute.
pub fn weight(alloc: Global, functions: &[Function], main: u32) -> Result<Option<u64>, Memory>
    ensures { IfOk result (λ o. IfSome o (λ n. weights (map function_of functions.now) (suc main) main ≤ n)) }
{
    let worths = worths_of(alloc, functions)?;
    if !are_bounded(&worths, functions) {
        return Ok(None);
    }
    Ok(Some(worth_of(&worths, main)))
}
