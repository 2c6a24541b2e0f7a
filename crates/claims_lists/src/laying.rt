// A program and where its code lies.
ghost use Rattle.std.specs.Prelude.{◌≡◌, ◌+◌, ◌<◌, ◌^◌, [], map, slice_index, slice_index_or};
ghost use Rattle.low_ir.specs.View.{loop_of};
ghost use Rattle.asm_items.specs.Placings.{blocks_size};
ghost use Rattle.claims_lists.specs.Outlines.{block_mark, outline_at};
ghost use Rattle.claims_lists.specs.Places.{base_in, blocks_in, end_in, starts_in, last_in, IsRoomy};

use asm_forms::Layout;
use asm_items::Item;
use asm_writing::bytes_of;
use low_ir::{Block, Loop, LowReg};
use wcc_base::Items;

/// A program over places, the layout of its code, and which of its functions lie in the scratchpad.
#[derive(Clone, Copy)]
pub struct Laying<'a> {
    pub code: &'a LowReg,
    /// The start code is its last function.
    pub layout: &'a Layout,
    /// By function. A function that the list doesn't reach lies in flash.
    pub placed: &'a [bool],
}

/// The loops of a function; the start code has none.
pub fn loops_of(code: &LowReg, function: usize) -> &[Loop]
    ensures { map loop_of result.now ≡ (outline_at code.now function).loops }
{
    match code.low.functions.get(function) {
        Some(function) => function.loops.as_slice(),
        None => &[],
    }
}

/// The blocks of a function in the low form; the start code has none.
pub fn blocks_of(code: &LowReg, function: usize) -> &[Block]
    ensures { map block_mark result.now ≡ (outline_at code.now function).marks }
{
    match code.low.functions.get(function) {
        Some(function) => function.blocks.as_slice(),
        None => &[],
    }
}

/// Where a function begins.
pub fn base_of(layout: &Layout, function: usize) -> u32
    ensures { result ≡ base_in layout.now function }
{
    match layout.bases.get(function) {
        Some(base) => *base,
        None => 0,
    }
}

/// The items of a function's blocks.
pub fn items_of(layout: &Layout, function: usize) -> &[Items<Item>]
    ensures { result.now ≡ blocks_in layout.now function }
{
    match layout.functions.get(function) {
        Some(blocks) => blocks.as_slice(),
        None => &[],
    }
}

/// Where the blocks of a function begin.
pub fn starts_of(layout: &Layout, function: usize) -> &[u32]
    ensures { result.now ≡ starts_in layout.now function }
{
    match layout.starts.get(function) {
        Some(starts) => starts.as_slice(),
        None => &[],
    }
}

/// One of these addresses; 0 where there is none.
pub fn start_at(starts: &[u32], block: usize) -> u32
    ensures { result ≡ slice_index starts.now block }
{
    match starts.get(block) {
        Some(start) => *start,
        None => 0,
    }
}

fn size_of_blocks(blocks: &[Items<Item>]) -> u32
    requires { blocks_size blocks.now < 2 ^ 32 }
    ensures { result ≡ blocks_size blocks.now }
{
    let mut bytes = 0;
    for block in blocks {
        bytes += bytes_of(block.as_slice());
    }
    bytes
}

/// Where a function ends.
pub fn end_of(layout: &Layout, function: usize) -> u32
    requires { IsRoomy layout.now }
    ensures { result ≡ end_in layout.now function }
{
    base_of(layout, function) + size_of_blocks(items_of(layout, function))
}

fn items_at(blocks: &[Items<Item>], block: usize) -> &[Item]
    ensures { result.now ≡ slice_index_or blocks.now block [] }
{
    match blocks.get(block) {
        Some(items) => items.as_slice(),
        None => &[],
    }
}

/// The address of the last instruction of a block.
pub fn last_of(layout: &Layout, function: usize, block: usize) -> u32
    requires { IsRoomy layout.now }
    ensures { result ≡ last_in layout.now function block }
{
    let start = start_at(starts_of(layout, function), block);
    let bytes = bytes_of(items_at(items_of(layout, function), block));
    (start + bytes).saturating_sub(4)
}
