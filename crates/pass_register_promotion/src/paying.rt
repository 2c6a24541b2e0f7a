// What code costs.
ghost use Rattle.std.specs.Prelude.{◌≡◌, ◌*◌, ◌≤◌, true, map, IfSome};
ghost use Rattle.low_ir.specs.Room.{block_room, times};
ghost use Rattle.low_ir.specs.View.{block_of, function_of, loop_of};
ghost use Rattle.pass_register_promotion_law.specs.Paying.{own_weight};

use low_ir::{Block, Function, Loop};
use low_parts::rooms::{block_part, times};

fn repeated_part(loops: &[Loop], number: u32, block: &Block) -> Option<u64>
    ensures { IfSome result (λ n. n ≡ times (map loop_of loops.now) number * block_room (block_of block.now)) }
{
    match times(loops, number) {
        None => None,
        Some(often) => match block_part(block) {
            None => None,
            Some(part) => often.checked_mul(part),
        },
    }
}

/// The machine instructions that a call of a function may execute, but for those of what it calls, if that is a number of 64 bits.
pub fn own_weight(function: &Function) -> Option<u64>
    ensures { IfSome result (λ n. n ≡ own_weight (function_of function.now)) }
{
    let mut total = 0u64;
    let mut number = 0u32;
    for block in &function.blocks {
        match repeated_part(&function.loops, number, block) {
            None => return None,
            Some(part) => match total.checked_add(part) {
                None => return None,
                Some(more) => total = more,
            },
        }
        match number.checked_add(1) {
            None => return None,
            Some(next) => number = next,
        }
    }
    Some(total)
}

/// Whether one function executes no more than another one, but for what they call.
pub fn is_paid(new: &Function, old: &Function) -> bool
    ensures { result ≡ true → own_weight (function_of new.now) ≤ own_weight (function_of old.now) }
{
    match own_weight(new) {
        None => false,
        Some(now) => match own_weight(old) {
            None => false,
            Some(before) => now <= before,
        },
    }
}
