// Ways past blocks that do nothing.
ghost use Rattle.std.specs.Prelude.{◌≡◌, true, All, IfSome, slice_index_or};
ghost use Rattle.low_ir.specs.View.{block_of, end_of, function_of};
ghost use Rattle.pass_jump_threading_law.specs.Known.{decided, goal};
ghost use Rattle.pass_jump_threading_law.specs.Threads.{Passes};
ghost use Rattle.pass_jump_threading.specs.Facts.{OnlyGoes, known_in};
ghost use Rattle.pass_jump_threading.specs.Planning.{IsSeen, Leads};

use super::facts::{Fact, word_of};
use low_ir::{Block, End, Function};
use rv_core::Condition;

/// How many blocks a way goes past at most.
const STEPS: usize = 1024;

fn decided(
    condition: Condition,
    left: Option<u32>,
    right: Option<u32>,
    taken: u32,
    other: u32,
) -> Option<u32>
    ensures { result ≡ decided condition taken other left right }
{
    let Some(left) = left else {
        return None;
    };
    let Some(right) = right else {
        return None;
    };
    if condition.holds(left, right) {
        Some(taken)
    } else {
        Some(other)
    }
}

/// The block to which an end goes, where what is known decides it.
pub fn goal(held: &[Option<u32>], facts: &[Fact], end: End) -> Option<u32>
    ensures { result ≡ goal (known_in held.now facts.now) (end_of end) }
{
    match end {
        End::Jump { block } => Some(block),
        End::Return { .. } => None,
        End::Branch {
            condition,
            left,
            right,
            taken,
            other,
        } => {
            let left = word_of(held, facts, left);
            let right = word_of(held, facts, right);
            decided(condition, left, right, taken, other)
        }
    }
}

fn only_goes(held: &[Option<u32>], facts: &[Fact], block: &Block) -> Option<u32>
    ensures { IfSome result (λ c. OnlyGoes (known_in held.now facts.now) (block_of block.now) c) }
{
    if block.mark.is_some() || block.code.len() > 0 {
        return None;
    }
    goal(held, facts, block.end)
}

/// Whether a loop begins or ends at a block, or there is none.
pub fn is_seen(seen: &[bool], block: u32) -> bool
    ensures { result ≡ slice_index_or seen.now block true }
{
    match seen.get(block as usize) {
        None => true,
        Some(is) => *is,
    }
}

/// The block to which a block only goes on.
fn next(
    function: &Function,
    seen: &[bool],
    held: &[Option<u32>],
    facts: &[Fact],
    block: u32,
) -> Option<u32>
    ensures { IfSome result (λ c. All (IsSeen seen.now) (function_of function.now).loops → Passes (function_of function.now) (known_in held.now facts.now) block c) }
{
    if is_seen(seen, block) {
        return None;
    }
    match function.blocks.get(block as usize) {
        None => None,
        Some(it) => only_goes(held, facts, it),
    }
}

/// The block to which one comes from a block on.
pub fn lead(
    function: &Function,
    seen: &[bool],
    held: &[Option<u32>],
    facts: &[Fact],
    block: u32,
) -> u32
    ensures { All (IsSeen seen.now) (function_of function.now).loops → Leads (function_of function.now) (known_in held.now facts.now) block result }
{
    let mut at = block;
    for _ in 0..STEPS {
        match next(function, seen, held, facts, at) {
            None => return at,
            Some(further) => at = further,
        }
    }
    at
}
