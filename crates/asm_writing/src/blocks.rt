// The words of blocks and functions.
ghost use Rattle.std.specs.Prelude.{◌≡◌, ◌+◌, ◌≤◌, ◌^◌, ◌++◌, map, IsTrue, OnOk};
ghost use Rattle.rv_core.specs.Words.{word_of};
ghost use Rattle.asm_items.specs.Items.{total, all_words, in_rows};
ghost use Rattle.asm_items.specs.Placings.{blocks_size, blocks_words};
ghost use Rattle.asm_writing.specs.Targets.{starts_in, AreLow};

use super::sizes::{bytes_of, size_of};
use super::targets::target_of;
use super::words::put_item;
use asm_items::Item;
use wcc_base::{Items, Memory};

/// The words of items in a row that stand at an address, behind other words.
fn put_block(
    words: &mut Vec<u32>,
    starts: &[Items<u32>],
    function: usize,
    at: u32,
    items: &[Item],
) -> Result<(), Memory>
    requires low { AreLow starts.now }
    requires room { at + total items.now ≤ 2 ^ 30 }
    requires rows { IsTrue (in_rows (all_words (starts_in starts.now) function at items.now)) }
    ensures { OnOk result (words.new.items ≡ words.old.items ++ map word_of (all_words (starts_in starts.now) function at items.now)) }
{
    let mut next = at;
    for item in items {
        put_item(words, item, next, target_of(starts, function, item))?;
        next += size_of(item);
    }
    Ok(())
}

/// The words of the blocks of a function that stands at an address, behind other words.
pub fn put_blocks(
    words: &mut Vec<u32>,
    starts: &[Items<u32>],
    function: usize,
    at: u32,
    blocks: &[Items<Item>],
) -> Result<(), Memory>
    requires low { AreLow starts.now }
    requires room { at + blocks_size blocks.now ≤ 2 ^ 30 }
    requires rows { IsTrue (in_rows (blocks_words (starts_in starts.now) function at blocks.now)) }
    ensures { OnOk result (words.new.items ≡ words.old.items ++ map word_of (blocks_words (starts_in starts.now) function at blocks.now)) }
{
    let mut next = at;
    for block in blocks {
        put_block(words, starts, function, next, block.as_slice())?;
        next += bytes_of(block.as_slice());
    }
    Ok(())
}
