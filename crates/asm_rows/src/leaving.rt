// The addresses at which functions exit.
ghost use Rattle.std.specs.Prelude.{◌≡◌, ◌+◌, ◌≤◌, ◌^◌, ◌++◌, IfOk, OnOk};
ghost use Rattle.asm_items.specs.Items.{total};
ghost use Rattle.asm_items.specs.Placings.{blocks_size};
ghost use Rattle.asm_items.specs.Standing.{is_exit};
ghost use Rattle.asm_forms.specs.Regions.{RoomFrom};
ghost use Rattle.asm_placed.specs.Exits.{items_exits, blocks_exits, functions_exits};

use asm_forms::Layout;
use asm_items::Item;
use asm_writing::{bytes_of, size_of};
use std::alloc::Global;
use wcc_base::{Items, Memory};

fn is_exit(item: &Item) -> bool
    ensures { result ≡ is_exit item.now }
{
    match item {
        Item::Single(_) => false,
        Item::Jump { .. } => false,
        Item::Call { .. } => false,
        Item::Branch { .. } => false,
        Item::Return => false,
        Item::Exit => true,
    }
}

fn put_items(exits: &mut Vec<u32>, at: u32, items: &[Item]) -> Result<(), Memory>
    requires { at + total items.now ≤ 2 ^ 30 }
    ensures { OnOk result (exits.new.items ≡ exits.old.items ++ items_exits at items.now) }
{
    let mut next = at;
    for item in items {
        if is_exit(item) {
            exits.push(next)?;
        }
        next += size_of(item);
    }
    Ok(())
}

fn put_blocks(exits: &mut Vec<u32>, at: u32, blocks: &[Items<Item>]) -> Result<(), Memory>
    requires { at + blocks_size blocks.now ≤ 2 ^ 30 }
    ensures { OnOk result (exits.new.items ≡ exits.old.items ++ blocks_exits at blocks.now) }
{
    let mut next = at;
    for block in blocks {
        put_items(exits, next, block.as_slice())?;
        next += bytes_of(block.as_slice());
    }
    Ok(())
}

/// The addresses of the exits of a layout, function by function.
pub fn exits(alloc: Global, layout: &Layout) -> Result<Vec<u32>, Memory>
    requires { RoomFrom layout.now.bases.items 0 layout.now.functions.items }
    ensures { IfOk result (λ exits. exits.items ≡ functions_exits layout.now.bases.items 0 layout.now.functions.items) }
{
    let mut exits = Vec::new(alloc);
    for (number, blocks) in layout.functions.iter().enumerate() {
        put_blocks(&mut exits, layout.bases[number], blocks.as_slice())?;
    }
    Ok(exits)
}
