// A function with shorter ways.
ghost use Rattle.std.specs.Prelude.{◌≡◌, ◌<◌, ◌+◌, true, None, Some, All, IfOk, IfSome, length, map, slice_index_or};
ghost use Rattle.std.specs.List.{AllZip};
ghost use Rattle.low_ir.specs.View.{block_of, function_of, loop_of};
ghost use Rattle.pass_jump_threading_law.specs.Threads.{BlockThreaded, Blocks, FunctionThreaded, LoopThreaded};
ghost use Rattle.pass_jump_threading.specs.Planning.{IsSeen, SoFar, name_in, plan_of};

use super::ends::{name_at, threaded_end};
use super::facts::{are_held, copied, pass_all};
use super::planning::{Planned, Stay, make_plan};
use super::ways::is_seen;
use low_ir::{Block, Function, Loop};
use low_parts::same::same_code;
use std::alloc::Global;
use wcc_base::Memory;

/// The first block, where nothing is known; behind it all is known that is held.
fn first_block(
    alloc: Global,
    function: &Function,
    plan: &Planned,
    block: &Block,
) -> Result<Option<Block>, Memory>
    ensures { IfOk result (λ o. IfSome o (λ new. All (IsSeen plan.now.seen.items) (function_of function.now).loops → BlockThreaded (function_of function.now) (plan_of plan.now) 0 (block_of block.now) (block_of new))) }
{
    let nothing: Vec<Option<u32>> = Vec::new(alloc);
    let mut facts = Vec::new(alloc);
    if !pass_all(alloc, &nothing, &mut facts, &block.code)? {
        return Ok(None);
    }
    if !are_held(&plan.held, &facts) {
        return Ok(None);
    }
    let Some(end) = threaded_end(function, plan, &nothing, &facts, block.end) else {
        return Ok(None);
    };
    let code = same_code(alloc, &block.code)?;
    Ok(Some(Block {
        mark: block.mark,
        code,
        end,
    }))
}

/// Another block that is left.
fn later_block(
    alloc: Global,
    function: &Function,
    plan: &Planned,
    stay: &Stay,
    at: usize,
    block: &Block,
) -> Result<Option<Block>, Memory>
    requires later { 0 < at }
    requires there { slice_index_or plan.now.stays.items at None ≡ Some stay.now }
    ensures { IfOk result (λ o. IfSome o (λ new. All (IsSeen plan.now.seen.items) (function_of function.now).loops → BlockThreaded (function_of function.now) (plan_of plan.now) at (block_of block.now) (block_of new))) }
{
    let mut facts = copied(alloc, &stay.facts)?;
    if !pass_all(alloc, &plan.held, &mut facts, &block.code)? {
        return Ok(None);
    }
    let Some(end) = threaded_end(function, plan, &plan.held, &facts, block.end) else {
        return Ok(None);
    };
    let code = same_code(alloc, &block.code)?;
    Ok(Some(Block {
        mark: block.mark,
        code,
        end,
    }))
}

/// A block that is left.
fn block_at(
    alloc: Global,
    function: &Function,
    plan: &Planned,
    stay: &Stay,
    at: usize,
    block: &Block,
) -> Result<Option<Block>, Memory>
    requires { slice_index_or plan.now.stays.items at None ≡ Some stay.now }
    ensures { IfOk result (λ o. IfSome o (λ new. All (IsSeen plan.now.seen.items) (function_of function.now).loops → BlockThreaded (function_of function.now) (plan_of plan.now) at (block_of block.now) (block_of new))) }
{
    if at == 0 {
        first_block(alloc, function, plan, block)
    } else {
        later_block(alloc, function, plan, stay, at, block)
    }
}

/// One more block, if it is left; or it doesn't fit.
fn put_block(
    alloc: Global,
    function: &Function,
    plan: &Planned,
    made: &mut Vec<Block>,
    at: usize,
) -> Result<bool, Memory>
    requires { at < length function.now.blocks.items }
    ensures { IfOk result (λ fits. fits ≡ true → All (IsSeen plan.now.seen.items) (function_of function.now).loops → SoFar (function_of function.now) (plan_of plan.now) at (map block_of made.old.items) → SoFar (function_of function.now) (plan_of plan.now) (at + 1) (map block_of made.new.items)) }
{
    let block = &function.blocks[at];
    match plan.stays.get(at) {
        None => Ok(true),
        Some(None) => Ok(true),
        Some(Some(stay)) => {
            if stay.name as usize != made.len() {
                return Ok(false);
            }
            match block_at(alloc, function, plan, stay, at, block)? {
                None => Ok(false),
                Some(new) => {
                    made.push(new)?;
                    Ok(true)
                }
            }
        }
    }
}

/// The blocks that are left, if all was planned well.
fn blocks_of(
    alloc: Global,
    function: &Function,
    plan: &Planned,
) -> Result<Option<Vec<Block>>, Memory>
    ensures { IfOk result (λ o. IfSome o (λ made. All (IsSeen plan.now.seen.items) (function_of function.now).loops → Blocks (function_of function.now) (plan_of plan.now) 0 0 (function_of function.now).blocks (map block_of made.items))) }
{
    let mut made = Vec::new(alloc);
    for at in 0..function.blocks.len() {
        if !put_block(alloc, function, plan, &mut made, at)? {
            return Ok(None);
        }
    }
    Ok(Some(made))
}

/// A loop over the blocks that are left.
fn loop_of(plan: &Planned, each: Loop) -> Option<Loop>
    ensures { IfSome result (λ new. LoopThreaded (name_in plan.now.stays.items) (loop_of each) (loop_of new)) }
{
    let Some(header) = name_at(&plan.stays, each.header) else {
        return None;
    };
    let Some(latch) = name_at(&plan.stays, each.latch) else {
        return None;
    };
    Some(Loop {
        id: each.id,
        min: each.min,
        max: each.max,
        header,
        latch,
    })
}

fn loops_of(alloc: Global, plan: &Planned, loops: &[Loop]) -> Result<Option<Vec<Loop>>, Memory>
    ensures { IfOk result (λ o. IfSome o (λ new. AllZip (LoopThreaded (name_in plan.now.stays.items)) (map loop_of loops.now) (map loop_of new.items))) }
{
    let mut new = Vec::new(alloc);
    for each in loops {
        let Some(it) = loop_of(plan, *each) else {
            return Ok(None);
        };
        new.push(it)?;
    }
    Ok(Some(new))
}

/// Whether the blocks where loops begin and end are among those that are seen.
fn are_seen(seen: &[bool], loops: &[Loop]) -> bool
    ensures { result ≡ true → All (IsSeen seen.now) (map loop_of loops.now) }
{
    for each in loops {
        if !is_seen(seen, each.header) || !is_seen(seen, each.latch) {
            return false;
        }
    }
    true
}

fn is_first(plan: &Planned) -> bool
    ensures { result ≡ true → name_in plan.now.stays.items 0 ≡ Some 0 }
{
    match name_at(&plan.stays, 0) {
        None => false,
        Some(name) => name == 0,
    }
}

fn registers_of(alloc: Global, registers: &[u32]) -> Result<Vec<u32>, Memory>
    ensures { IfOk result (λ same. same.items ≡ registers.now) }
{
    let mut same = Vec::new(alloc);
    for register in registers {
        same.push(*register)?;
    }
    Ok(same)
}

/// A function by a plan, if it fits.
fn by_plan(alloc: Global, function: &Function, plan: &Planned) -> Result<Option<Function>, Memory>
    ensures { IfOk result (λ o. IfSome o (λ g. FunctionThreaded (function_of function.now) (function_of g))) }
{
    if !is_first(plan) || !are_seen(&plan.seen, &function.loops) {
        return Ok(None);
    }
    let Some(loops) = loops_of(alloc, plan, &function.loops)? else {
        return Ok(None);
    };
    let Some(blocks) = blocks_of(alloc, function, plan)? else {
        return Ok(None);
    };
    let parameters = registers_of(alloc, &function.parameters)?;
    Ok(Some(Function {
        parameters,
        registers: function.registers,
        loops,
        blocks,
    }))
}

/// A function with shorter ways, if its plan fits. By mark: whether its block stays even where no way leads to it.
pub fn function_threaded(
    alloc: Global,
    function: &Function,
    never: &[bool],
) -> Result<Option<Function>, Memory>
    ensures { IfOk result (λ o. IfSome o (λ g. FunctionThreaded (function_of function.now) (function_of g))) }
{
    let plan = make_plan(alloc, function, never)?;
    by_plan(alloc, function, &plan)
}
