// Functions that lie in their regions.
ghost use Rattle.std.specs.Prelude.{◌≡◌, IfOk};
ghost use Rattle.asm_writing.specs.Targets.{starts_in, AreLow};
ghost use Rattle.asm_forms.specs.Regions.{RoomFrom};
ghost use Rattle.asm_forms.specs.Shorter.{functions_shorter};
ghost use Rattle.asm_forms.specs.Layouts.{functions_fit, improved};
ghost use Rattle.asm_forms.specs.Sound.{FunctionsSound};
ghost use Rattle.asm_forms.specs.Laid.{HasRoom, IsLaid, rows_of};

use super::fits::blocks_fit;
use super::regions::{Regions, bases_of, tables_of};
use super::shorter::shorter_blocks;
use asm_items::Item;
use std::alloc::Global;
use wcc_base::{Items, Memory};

/// Functions in their forms, where each begins, and where each of its blocks does.
#[derive(Drop)]
pub struct Layout {
    pub functions: Vec<Items<Items<Item>>>,
    pub bases: Vec<u32>,
    pub starts: Vec<Items<u32>>,
}

/// Functions as they are, in their regions.
pub fn laid(
    alloc: Global,
    regions: Regions<'_>,
    functions: Vec<Items<Items<Item>>>,
) -> Result<Layout, Memory>
    requires { HasRoom (rows_of regions) functions.items }
    ensures { IfOk result (λ l. IsLaid (rows_of regions.entry) functions.items l) }
{
    let bases = bases_of(alloc, regions, functions.as_slice())?;
    let starts = tables_of(alloc, bases.as_slice(), functions.as_slice())?;
    Ok(Layout {
        functions,
        bases,
        starts,
    })
}

/// Whether each item reaches its target.
fn fits(layout: &Layout) -> bool
    requires low { AreLow layout.now.starts.items }
    requires sound { FunctionsSound layout.now.functions.items }
    requires room { RoomFrom layout.now.bases.items 0 layout.now.functions.items }
    ensures { result ≡ functions_fit (starts_in layout.now.starts.items) layout.now.bases.items 0 layout.now.functions.items }
{
    for (number, blocks) in layout.functions.iter().enumerate() {
        let at = layout.bases[number];
        if !blocks_fit(layout.starts.as_slice(), number, at, blocks.as_slice()) {
            return false;
        }
    }
    true
}

/// Each item in the shortest form that its place allows.
fn shortened(alloc: Global, layout: &Layout) -> Result<Vec<Items<Items<Item>>>, Memory>
    requires low { AreLow layout.now.starts.items }
    requires room { RoomFrom layout.now.bases.items 0 layout.now.functions.items }
    ensures { IfOk result (λ fs. fs.items ≡ functions_shorter (starts_in layout.now.starts.items) layout.now.bases.items 0 layout.now.functions.items) }
{
    let mut functions = Vec::new(alloc);
    for (number, blocks) in layout.functions.iter().enumerate() {
        let at = layout.bases[number];
        let starts = layout.starts.as_slice();
        functions.push(shorter_blocks(alloc, starts, number, at, blocks.as_slice())?)?;
    }
    Ok(functions)
}

/// The functions in shorter forms, if all of these reach their targets.
pub fn improved(alloc: Global, regions: Regions<'_>, layout: Layout) -> Result<Layout, Memory>
    requires sound { FunctionsSound layout.functions.items }
    requires room { HasRoom (rows_of regions) layout.functions.items }
    requires laid { IsLaid (rows_of regions) layout.functions.items layout }
    ensures { IfOk result (λ l. IsLaid (rows_of regions.entry) (improved (rows_of regions.entry) layout.functions.items) l) }
{
    let shorter = laid(alloc, regions, shortened(alloc, &layout)?)?;
    Ok(if fits(&shorter) { shorter } else { layout })
}
