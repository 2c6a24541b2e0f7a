// Functions that lead over many instructions.
ghost use Rattle.std.specs.Prelude.{◌≡◌, ◌*◌, ◌<◌, ◌^◌, ◌∷◌, [], IfOk};
ghost use Rattle.asm_items.specs.Items.{total};
ghost use Rattle.asm_forms.specs.Regions.{functions_size};
ghost use Rattle.asm_forms.specs.Shorter.{functions_longest, items_longest};
ghost use Rattle.asm_forms.specs.Sound.{AreSound, FunctionsSound, IsSound};

use asm_items::Item;
use rv_core::Instr;
use std::alloc::Global;
use wcc_base::{Items, Memory};

fn one(alloc: Global, item: Item) -> Result<Items<Item>, Memory>
    ensures { IfOk result (λ items. items ≡ item ∷ []) }
{
    let mut items = Vec::new(alloc);
    items.push(item)?;
    Ok(Items::new(items))
}

/// So many instructions that do nothing.
fn idle(alloc: Global, count: u32) -> Result<Items<Item>, Memory>
    ensures sound { IfOk result (λ items. AreSound items) }
    ensures room { IfOk result (λ items. total (items_longest items) ≡ 4 * count) }
{
    let item = Item::Single(Instr::addi(0, 0, 0));
    Ok(Items::new(vec![in alloc; item; count as usize]?))
}

/// A function of four blocks: an item, so many instructions that do nothing, another item, and a return.
pub fn function_of(
    alloc: Global,
    first: Item,
    between: u32,
    last: Item,
) -> Result<Vec<Items<Items<Item>>>, Memory>
    requires first { IsSound first }
    requires last { IsSound last }
    requires between { between < 2 ^ 20 }
    ensures sound { IfOk result (λ functions. FunctionsSound functions.items) }
    ensures room { IfOk result (λ functions. functions_size (functions_longest functions.items) < 2 ^ 24) }
{
    let mut blocks = Vec::new(alloc);
    blocks.push(one(alloc, first)?)?;
    blocks.push(idle(alloc, between)?)?;
    blocks.push(one(alloc, last)?)?;
    blocks.push(one(alloc, Item::Return)?)?;
    let mut functions = Vec::new(alloc);
    functions.push(Items::new(blocks))?;
    Ok(functions)
}
