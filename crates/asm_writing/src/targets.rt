// Where items lead.
ghost use Rattle.std.specs.Prelude.{◌≡◌};
ghost use Rattle.asm_writing.specs.Targets.{starts_in, target};

use asm_items::Item;
use wcc_base::Items;

/// Where a block of a function begins; 0 where there is none.
fn start_of(starts: &[Items<u32>], function: usize, block: usize) -> u32
    ensures { result ≡ starts_in starts.now function block }
{
    match starts.get(function) {
        Some(blocks) => match blocks.as_slice().get(block) {
            Some(start) => *start,
            None => 0,
        },
        None => 0,
    }
}

/// The address to which an item of a function leads; 0 where it leads nowhere.
pub fn target_of(starts: &[Items<u32>], function: usize, item: &Item) -> u32
    ensures { result ≡ target (starts_in starts.now) function item.now }
{
    match item {
        Item::Single(_) => 0,
        Item::Jump { block, .. } => start_of(starts, function, *block as usize),
        Item::Call { function, .. } => start_of(starts, *function as usize, 0),
        Item::Branch { block, .. } => start_of(starts, function, *block as usize),
        Item::Return => 0,
        Item::Exit => 0,
    }
}
