// Functions with pointers that step.
ghost use Rattle.std.specs.Prelude.{◌≡◌, ℕ, List, [], true, All, Vec, map, slice_get, IfOk, IfSome};
ghost use Rattle.std.specs.Global.{Global};
ghost use Rattle.low_ir.specs.Code.{Loop as LowLoop};
ghost use Rattle.low_ir.specs.View.{block_of, function_of, instr_of, loop_of};
ghost use Rattle.pass_strength_reduction_law.specs.Steps.{IsIdle};
ghost use Rattle.pass_strength_reduction.specs.Changing.{BlockChanged, BlocksChanged, IsChanged};
ghost use Rattle.pass_strength_reduction.specs.Scenes.{Fits, Scene, facts_at};

use super::editing::edited;
use super::ending::ends;
use super::registers::name_none;
use super::scope::Scope;
use low_ir::{Block, Function, Instr, Loop};
use low_parts::same::{same_blocks, same_loops, same_registers};
use pass_dataflow_facts::{Change, Fact, Proposal};
use pass_dataflow_transfer::Known;
use std::alloc::Global;
use wcc_base::Memory;

/// How many facts a block may teach at once.
const LEARNED: usize = 32;

/// The new block, if its edits are right and what is to be known behind it is.
fn changed_block(
    alloc: Global,
    scope: &Scope,
    changes: &[Change],
    change: &Change,
    block: &Block,
) -> Result<Option<Block>, Memory>
    ensures { IfOk result (λ o. IfSome o (λ b. (sc : Scene) → Fits scope.now.claims.now scope.now.alone.now scope.now.objects scope.now.registers scope.now.spare.now sc → sc.changes ≡ changes.now → BlockChanged sc change.now.facts.items (block_of block.now) (block_of b))) }
{
    let mut known = Known::new(alloc, &change.facts, LEARNED)?;
    let Some(code) = edited(alloc, scope, &mut known, &block.code, &change.edits)? else {
        return Ok(None);
    };
    if !ends(&known.facts, changes, block.end) {
        return Ok(None);
    }
    Ok(Some(Block {
        mark: block.mark,
        code,
        end: block.end,
    }))
}

/// The block of this number.
fn block_by(
    alloc: Global,
    scope: &Scope,
    changes: &[Change],
    number: usize,
    block: &Block,
) -> Result<Option<Block>, Memory>
    ensures { IfOk result (λ o. IfSome o (λ b. (sc : Scene) → Fits scope.now.claims.now scope.now.alone.now scope.now.objects scope.now.registers scope.now.spare.now sc → sc.changes ≡ changes.now → BlockChanged sc (facts_at changes.now number) (block_of block.now) (block_of b))) }
{
    match changes.get(number) {
        None => Ok(None),
        Some(change) => changed_block(alloc, scope, changes, change, block),
    }
}

fn changed_blocks(
    alloc: Global,
    scope: &Scope,
    changes: &[Change],
    blocks: &[Block],
) -> Result<Option<Vec<Block>>, Memory>
    ensures { IfOk result (λ o. IfSome o (λ made. (sc : Scene) → Fits scope.now.claims.now scope.now.alone.now scope.now.objects scope.now.registers scope.now.spare.now sc → sc.changes ≡ changes.now → BlocksChanged sc 0 (map block_of blocks.now) (map block_of made.items))) }
{
    let mut made = Vec::new(alloc);
    for (number, block) in blocks.iter().enumerate() {
        let Some(new) = block_by(alloc, scope, changes, number, block)? else {
            return Ok(None);
        };
        made.push(new)?;
    }
    Ok(Some(made))
}

fn has_none(code: &[Instr]) -> bool
    ensures { result ≡ true → map instr_of code.now ≡ [] }
{
    if code.len() > 0 {
        return false;
    }
    true
}

fn is_idle(blocks: &[Block], latch: u32) -> bool
    ensures { result ≡ true → IsIdle (slice_get (map block_of blocks.now) latch) }
{
    match blocks.get(latch as usize) {
        None => true,
        Some(block) => has_none(&block.code),
    }
}

/// Whether latches do nothing but jump back.
fn are_idle(blocks: &[Block], loops: &[Loop]) -> bool
    ensures { result ≡ true → All (λ (l : LowLoop). IsIdle (slice_get (map block_of blocks.now) l.latch)) (map loop_of loops.now) }
{
    for each in loops {
        if !is_idle(blocks, each.latch) {
            return false;
        }
    }
    true
}

fn are_none(facts: &[Fact]) -> bool
    ensures { result ≡ true → facts.now ≡ [] }
{
    if facts.len() > 0 {
        return false;
    }
    true
}

/// Whether nothing is to be known as a function begins.
fn begins_bare(changes: &[Change]) -> bool
    ensures { result ≡ true → facts_at changes.now 0 ≡ [] }
{
    match changes.get(0) {
        None => true,
        Some(change) => are_none(&change.facts),
    }
}

/// What a program is changed to: its claims, those of one array each behind them, and how many arrays there are.
#[derive(Clone, Copy)]
pub struct Around<'a> {
    pub claims: &'a [Vec<u32>],
    pub alone: &'a [u32],
    pub objects: usize,
}

/// A function by what is proposed for it, if that is right.
pub fn changed(
    alloc: Global,
    around: &Around,
    function: &Function,
    proposal: &Proposal,
) -> Result<Option<Function>, Memory>
    ensures { IfOk result (λ o. IfSome o (λ g. IsChanged around.now.claims.now around.now.alone.now around.now.objects (function_of function.now) (function_of g))) }
{
    if !begins_bare(&proposal.changes) {
        return Ok(None);
    }
    if !name_none(alloc, &proposal.spare, &function.blocks)? {
        return Ok(None);
    }
    let scope = Scope {
        claims: around.claims,
        alone: around.alone,
        objects: around.objects,
        registers: function.registers,
        spare: &proposal.spare,
    };
    let Some(blocks) = changed_blocks(alloc, &scope, &proposal.changes, &function.blocks)? else {
        return Ok(None);
    };
    if !are_idle(&blocks, &function.loops) {
        return Ok(None);
    }
    Ok(Some(Function {
        parameters: same_registers(alloc, &function.parameters)?,
        registers: function.registers,
        loops: same_loops(alloc, &function.loops)?,
        blocks,
    }))
}

/// The same function.
pub fn kept(alloc: Global, function: &Function) -> Result<Option<Function>, Memory>
    ensures { IfOk result (λ o. IfSome o (λ g. (claims : List (Vec ℕ Global)) (alone : List ℕ) (objects : ℕ) → IsChanged claims alone objects (function_of function.now) (function_of g))) }
{
    if !are_idle(&function.blocks, &function.loops) {
        return Ok(None);
    }
    Ok(Some(Function {
        parameters: same_registers(alloc, &function.parameters)?,
        registers: function.registers,
        loops: same_loops(alloc, &function.loops)?,
        blocks: same_blocks(alloc, &function.blocks)?,
    }))
}
