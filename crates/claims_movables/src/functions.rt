// The items of functions.
ghost use Rattle.std.specs.Prelude.{◌≡◌, ◌/◌, false, length, map, slice_index_or, IfOk};
ghost use Rattle.std.specs.List.{range_with_len};
ghost use Rattle.asm_items.specs.Placings.{blocks_size};
ghost use Rattle.low_ir.specs.View.{block_of};
ghost use Rattle.claims_definition.specs.Movables.{code_region, words_at, movable_of};
ghost use Rattle.claims_lists.specs.Places.{IsRoomy, base_in, blocks_in};
ghost use Rattle.claims_movables.specs.Listed.{function_in, low_blocks, size_in};

use super::near::blocks_near;
use super::numbers::{add, count, in_bytes};
use super::sizes::{longest_of, size_of_blocks, words};
use asm_data::Data;
use asm_forms::Layout;
use claims_definition::LaidItem;
use claims_lists::{Laying, base_of, items_of};
use low_ir::Block;
use rv_core::Region;
use std::alloc::Global;
use wcc_base::{Items, Memory};

fn blocks_at<'a>(laying: &Laying<'a>, function: usize) -> &'a [Block]
    ensures { map block_of result.now ≡ low_blocks laying.now function }
{
    match laying.code.low.functions.get(function) {
        Some(function) => function.blocks.as_slice(),
        None => &[],
    }
}

fn size_at(laying: &Laying<'_>, memory: &Data, function: usize) -> Result<u32, Memory>
    ensures { IfOk result (λ size. size ≡ size_in laying.now memory.now function) }
{
    let longest = longest_of(items_of(laying.layout, function))?;
    let near = blocks_near(memory, blocks_at(laying, function))?;
    add(longest, in_bytes(near)?)
}

fn region_at(placed: &[bool], function: usize) -> Region
    ensures { result ≡ code_region (slice_index_or placed.now function false) }
{
    match placed.get(function) {
        Some(placed) => { if *placed { Region::Spm } else { Region::Flash } }
        None => Region::Flash,
    }
}

/// The addresses of a function's instructions.
fn words_of(alloc: Global, layout: &Layout, function: usize) -> Result<Items<u32>, Memory>
    requires { IsRoomy layout.now }
    ensures { IfOk result (λ words. words ≡ words_at (base_in layout.now function) (blocks_size (blocks_in layout.now function) / 4)) }
{
    let bytes = size_of_blocks(items_of(layout, function));
    words(alloc, base_of(layout, function), bytes)
}

fn function_item(
    alloc: Global,
    laying: &Laying<'_>,
    memory: &Data,
    function: usize,
) -> Result<LaidItem, Memory>
    requires { IsRoomy laying.now.layout.now }
    ensures { IfOk result (λ item. movable_of item ≡ function_in laying.now memory.now function) }
{
    let id = count(function)?;
    let size = size_at(laying, memory, function)?;
    let at = words_of(alloc, laying.layout, function)?;
    Ok(LaidItem {
        id,
        size,
        code: true,
        region: region_at(laying.placed, function),
        at,
    })
}

/// The items of all functions, in the order of their numbers.
pub fn function_items(
    alloc: Global,
    laying: &Laying<'_>,
    memory: &Data,
) -> Result<Vec<LaidItem>, Memory>
    requires { IsRoomy laying.now.layout.now }
    ensures { IfOk result (λ items. map movable_of items.items ≡ map (function_in laying.now memory.now) (range_with_len 0 (length laying.now.code.now.low.functions.items))) }
{
    let mut items = Vec::new(alloc);
    for function in 0..laying.code.low.functions.len() {
        items.push(function_item(alloc, laying, memory, function)?)?;
    }
    Ok(items)
}
