// The bytes of code, and the addresses of its instructions.
ghost use Rattle.std.specs.Prelude.{◌≡◌, ◌+◌, ◌/◌, ◌<◌, ◌^◌, IfOk};
ghost use Rattle.asm_items.specs.Items.{size, total};
ghost use Rattle.asm_items.specs.Placings.{blocks_size};
ghost use Rattle.asm_forms.specs.Shorter.{blocks_longest, items_longest, longest};
ghost use Rattle.claims_definition.specs.Movables.{words_at};

use super::numbers::add;
use asm_items::Item;
use asm_writing::bytes_of;
use std::alloc::Global;
use wcc_base::{Items, Memory};

/// The bytes of an item in its longest form.
fn longest_size(item: &Item) -> u32
    ensures { result ≡ size (longest item.now) }
{
    match item {
        Item::Single(_) => 4,
        Item::Jump { .. } => 8,
        Item::Call { .. } => 8,
        Item::Branch { .. } => 12,
        Item::Return => 4,
        Item::Exit => 4,
    }
}

fn longest_of_items(items: &[Item]) -> Result<u32, Memory>
    ensures { IfOk result (λ bytes. bytes ≡ total (items_longest items.now)) }
{
    let mut bytes = 0;
    for item in items {
        bytes = add(bytes, longest_size(item))?;
    }
    Ok(bytes)
}

/// The bytes of blocks whose items have their longest forms.
pub fn longest_of(blocks: &[Items<Item>]) -> Result<u32, Memory>
    ensures { IfOk result (λ bytes. bytes ≡ blocks_size (blocks_longest blocks.now)) }
{
    let mut bytes = 0;
    for block in blocks {
        bytes = add(bytes, longest_of_items(block.as_slice())?)?;
    }
    Ok(bytes)
}

/// The bytes of blocks as they are.
pub fn size_of_blocks(blocks: &[Items<Item>]) -> u32
    requires { blocks_size blocks.now < 2 ^ 32 }
    ensures { result ≡ blocks_size blocks.now }
{
    let mut bytes = 0;
    for block in blocks {
        bytes += bytes_of(block.as_slice());
    }
    bytes
}

/// The addresses of so many bytes of instructions in a row.
pub fn words(alloc: Global, at: u32, bytes: u32) -> Result<Items<u32>, Memory>
    requires { at + bytes < 2 ^ 32 }
    ensures { IfOk result (λ words. words ≡ words_at at (bytes / 4)) }
{
    let mut words = Vec::new(alloc);
    for number in 0..bytes / 4 {
        words.push(at + 4 * number)?;
    }
    Ok(Items::new(words))
}
