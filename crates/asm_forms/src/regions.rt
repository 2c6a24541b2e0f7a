// Where functions and their blocks begin.
ghost use Rattle.std.specs.Prelude.{◌≡◌, ◌+◌, ◌<◌, ◌^◌, IfOk, false, slice_index_or};
ghost use Rattle.asm_items.specs.Placings.{blocks_size};
ghost use Rattle.asm_forms.specs.Regions.{bases_from, tables_from, functions_size, RoomFrom};

use asm_items::Item;
use asm_writing::{bytes_of, starts_of};
use std::alloc::Global;
use wcc_base::{Items, Memory};

/// Where functions lie: those that are placed one behind the other in the scratchpad, the others in flash.
#[derive(Clone, Copy)]
pub struct Regions<'a> {
    /// By function, whether it lies in the scratchpad. A function that the list doesn't reach lies in flash.
    pub placed: &'a [bool],
    /// Where the first function of flash begins.
    pub flash: u32,
    /// Where the first function of the scratchpad begins.
    pub scratchpad: u32,
}

fn size_of_blocks(blocks: &[Items<Item>]) -> u32
    requires { blocks_size blocks.now < 2 ^ 32 }
    ensures { result ≡ blocks_size blocks.now }
{
    let mut bytes = 0;
    for block in blocks {
        bytes += bytes_of(block.as_slice());
    }
    bytes
}

fn is_placed(placed: &[bool], function: usize) -> bool
    ensures { result ≡ slice_index_or placed.now function false }
{
    match placed.get(function) {
        Some(placed) => *placed,
        None => false,
    }
}

/// Where each function begins.
pub fn bases_of(
    alloc: Global,
    regions: Regions<'_>,
    functions: &[Items<Items<Item>>],
) -> Result<Vec<u32>, Memory>
    requires flash { regions.flash + functions_size functions.now < 2 ^ 30 }
    requires scratchpad { regions.scratchpad + functions_size functions.now < 2 ^ 30 }
    ensures { IfOk result (λ bases. bases.items ≡ bases_from regions.entry.placed.now 0 regions.entry.flash regions.entry.scratchpad functions.now) }
{
    let mut bases = Vec::new(alloc);
    let mut flash = regions.flash;
    let mut scratchpad = regions.scratchpad;
    for (number, blocks) in functions.iter().enumerate() {
        let size = size_of_blocks(blocks.as_slice());
        if is_placed(regions.placed, number) {
            bases.push(scratchpad)?;
            scratchpad += size;
        } else {
            bases.push(flash)?;
            flash += size;
        }
    }
    Ok(bases)
}

/// Where the blocks of each function begin.
pub fn tables_of(
    alloc: Global,
    bases: &[u32],
    functions: &[Items<Items<Item>>],
) -> Result<Vec<Items<u32>>, Memory>
    requires { RoomFrom bases.now 0 functions.now }
    ensures { IfOk result (λ tables. tables.items ≡ tables_from bases.now 0 functions.now) }
{
    let mut tables = Vec::new(alloc);
    for (number, blocks) in functions.iter().enumerate() {
        tables.push(Items::new(starts_of(alloc, bases[number], blocks.as_slice())?))?;
    }
    Ok(tables)
}
