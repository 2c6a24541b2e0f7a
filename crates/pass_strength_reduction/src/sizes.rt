// How many machine instructions a program takes beside another.
ghost use Rattle.std.specs.Prelude.{◌≡◌, ◌*◌, ◌+◌, ◌≤◌, true, map, sum_by, IfSome};
ghost use Rattle.low_ir.specs.Room.{function_room};
ghost use Rattle.low_ir.specs.View.{function_of};

use low_ir::Function;
use low_parts::rooms::block_part;

/// What a function takes, beside so much.
fn function_taken(function: &Function, beside: u64) -> Option<u64>
    ensures { IfSome result (λ n. n ≡ beside + function_room (function_of function.now)) }
{
    let Some(entered) = beside.checked_add(64) else {
        return None;
    };
    let mut total = entered;
    for block in &function.blocks {
        match block_part(block) {
            None => return None,
            Some(part) => match total.checked_add(part) {
                None => return None,
                Some(more) => total = more,
            },
        }
    }
    Some(total)
}

/// What functions take.
fn taken(functions: &[Function]) -> Option<u64>
    ensures { IfSome result (λ n. n ≡ sum_by function_room (map function_of functions.now)) }
{
    let mut total = 0u64;
    for function in functions {
        match function_taken(function, total) {
            None => return None,
            Some(more) => total = more,
        }
    }
    Some(total)
}

/// Twice that.
fn twice(functions: &[Function]) -> Option<u64>
    ensures { IfSome result (λ n. n ≡ 2 * sum_by function_room (map function_of functions.now)) }
{
    match taken(functions) {
        None => None,
        Some(once) => once.checked_mul(2),
    }
}

/// Whether functions take at most twice what others do.
pub fn is_small_beside(new: &[Function], old: &[Function]) -> bool
    ensures { result ≡ true → sum_by function_room (map function_of new.now) ≤ 2 * sum_by function_room (map function_of old.now) }
{
    match twice(old) {
        None => false,
        Some(most) => match taken(new) {
            None => false,
            Some(own) => own <= most,
        },
    }
}
