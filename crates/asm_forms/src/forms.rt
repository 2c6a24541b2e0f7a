// The forms of a program's items.
ghost use Rattle.std.specs.Prelude.{◌≡◌, IfOk};
ghost use Rattle.asm_forms.specs.Shorter.{functions_longest};
ghost use Rattle.asm_forms.specs.Sound.{FunctionsSound};
ghost use Rattle.asm_forms.specs.Laid.{HasRoom, IsFormed, rows_of};

use super::layouts::{Layout, improved, laid};
use super::regions::Regions;
use super::shorter::longest_blocks;
use asm_items::Item;
use std::alloc::Global;
use wcc_base::{Items, Memory};

fn longest(
    alloc: Global,
    functions: &[Items<Items<Item>>],
) -> Result<Vec<Items<Items<Item>>>, Memory>
    ensures { IfOk result (λ new. new.items ≡ functions_longest functions.now) }
{
    let mut new = Vec::new(alloc);
    for blocks in functions {
        new.push(longest_blocks(alloc, blocks.as_slice())?)?;
    }
    Ok(new)
}

/// The functions of a program in the shortest forms, where they lie in their regions, in bytes.
pub fn form(
    alloc: Global,
    regions: Regions<'_>,
    functions: &[Items<Items<Item>>],
) -> Result<Layout, Memory>
    requires sound { FunctionsSound functions.now }
    requires room { HasRoom (rows_of regions) functions.now }
    ensures { IfOk result (λ layout. IsFormed (rows_of regions.entry) functions.now layout) }
{
    let first = laid(alloc, regions, longest(alloc, functions)?)?;
    let second = improved(alloc, regions, first)?;
    improved(alloc, regions, second)
}
