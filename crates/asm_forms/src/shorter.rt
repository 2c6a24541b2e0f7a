// Items in other forms.
ghost use Rattle.std.specs.Prelude.{◌≡◌, ◌+◌, ◌<◌, ◌≤◌, ◌^◌, IfOk};
ghost use Rattle.asm_items.specs.Items.{size, total};
ghost use Rattle.asm_items.specs.Placings.{blocks_size};
ghost use Rattle.asm_writing.specs.Targets.{starts_in, AreLow};
ghost use Rattle.asm_forms.specs.Shorter.{longest, items_longest, blocks_longest, shorter, items_shorter, blocks_shorter};

use super::distances::{far, form_to};
use asm_items::{Form, Item};
use asm_writing::{bytes_of, size_of, target_of};
use std::alloc::Global;
use wcc_base::{Items, Memory};

fn longest_of(item: &Item) -> Item
    ensures { result ≡ longest item.now }
{
    match item {
        Item::Single(instr) => Item::Single(*instr),
        Item::Jump { block, .. } => Item::Jump {
            far: true,
            block: *block,
        },
        Item::Call { function, .. } => Item::Call {
            far: true,
            function: *function,
        },
        Item::Branch {
            condition,
            left,
            right,
            block,
            ..
        } => Item::Branch {
            form: Form::Far,
            condition: *condition,
            left: *left,
            right: *right,
            block: *block,
        },
        Item::Return => Item::Return,
        Item::Exit => Item::Exit,
    }
}

/// An item that stands at an address and leads to another, in its shortest form.
fn shorter_of(item: &Item, at: u32, to: u32) -> Item
    requires room { at + size item.now ≤ 2 ^ 30 }
    requires to { to < 2 ^ 30 }
    ensures { result ≡ shorter at to item.now }
{
    let end = at + size_of(item);
    match item {
        Item::Single(instr) => Item::Single(*instr),
        Item::Jump { block, .. } => Item::Jump {
            far: far(at, end, to),
            block: *block,
        },
        Item::Call { function, .. } => Item::Call {
            far: far(at, end, to),
            function: *function,
        },
        Item::Branch {
            condition,
            left,
            right,
            block,
            ..
        } => Item::Branch {
            form: form_to(at, end, to),
            condition: *condition,
            left: *left,
            right: *right,
            block: *block,
        },
        Item::Return => Item::Return,
        Item::Exit => Item::Exit,
    }
}

fn longest_items(alloc: Global, items: &[Item]) -> Result<Items<Item>, Memory>
    ensures { IfOk result (λ new. new ≡ items_longest items.now) }
{
    let mut new = Vec::new(alloc);
    for item in items {
        new.push(longest_of(item))?;
    }
    Ok(Items::new(new))
}

/// A function whose items have their longest forms.
pub fn longest_blocks(alloc: Global, blocks: &[Items<Item>]) -> Result<Items<Items<Item>>, Memory>
    ensures { IfOk result (λ new. new ≡ blocks_longest blocks.now) }
{
    let mut new = Vec::new(alloc);
    for block in blocks {
        new.push(longest_items(alloc, block.as_slice())?)?;
    }
    Ok(Items::new(new))
}

fn shorter_items(
    alloc: Global,
    starts: &[Items<u32>],
    function: usize,
    at: u32,
    items: &[Item],
) -> Result<Items<Item>, Memory>
    requires low { AreLow starts.now }
    requires room { at + total items.now ≤ 2 ^ 30 }
    ensures { IfOk result (λ new. new ≡ items_shorter (starts_in starts.now) function at items.now) }
{
    let mut new = Vec::new(alloc);
    let mut next = at;
    for item in items {
        new.push(shorter_of(item, next, target_of(starts, function, item)))?;
        next += size_of(item);
    }
    Ok(Items::new(new))
}

/// A function whose items have the shortest forms that their places allow.
pub fn shorter_blocks(
    alloc: Global,
    starts: &[Items<u32>],
    function: usize,
    at: u32,
    blocks: &[Items<Item>],
) -> Result<Items<Items<Item>>, Memory>
    requires low { AreLow starts.now }
    requires room { at + blocks_size blocks.now ≤ 2 ^ 30 }
    ensures { IfOk result (λ new. new ≡ blocks_shorter (starts_in starts.now) function at blocks.now) }
{
    let mut new = Vec::new(alloc);
    let mut next = at;
    for block in blocks {
        new.push(shorter_items(alloc, starts, function, next, block.as_slice())?)?;
        next += bytes_of(block.as_slice());
    }
    Ok(Items::new(new))
}
