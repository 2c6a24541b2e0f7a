// The lines of single loads and stores.
ghost use Rattle.std.specs.Prelude.{◌≡◌, ◌+◌, ◌<◌, ◌^◌, ◌++◌, [], None, slice_index_or, IfOk, OnOk};
ghost use Rattle.std.specs.List.{flat_map};
ghost use Rattle.asm_items.specs.Items.{total};
ghost use Rattle.asm_items.specs.Placings.{blocks_size};
ghost use Rattle.claims_lists.specs.Places.{IsRoomy};
ghost use Rattle.claims_regions.specs.Singles.{blocks_singles, items_singles, single, singles_in};

use asm_forms::Layout;
use asm_items::Item;
use asm_writing::{bytes_of, size_of};
use claims_lists::{base_of, items_of};
use code_flow_system::Within;
use std::alloc::Global;
use wcc_base::{Items, Memory};

/// The regions in which what a load or store touches may lie.
#[derive(Clone, Copy)]
pub struct Touched {
    pub flash: bool,
    pub spm: bool,
    pub ram: bool,
}

fn put(lines: &mut Vec<Within>, at: u32, touched: Option<Touched>) -> Result<(), Memory>
    requires { at + 4 < 2 ^ 32 }
    ensures { OnOk result (lines.new.items ≡ lines.old.items ++ single at touched) }
{
    if let Some(touched) = touched {
        lines.push(Within {
            first: at,
            end: at + 4,
            flash: touched.flash,
            spm: touched.spm,
            ram: touched.ram,
        })?;
    }
    Ok(())
}

fn touched_at(touched: &[Option<Touched>], number: usize) -> Option<Touched>
    ensures { result ≡ slice_index_or touched.now number None }
{
    match touched.get(number) {
        Some(touched) => *touched,
        None => None,
    }
}

fn list_at(touched: &[Items<Option<Touched>>], number: usize) -> &[Option<Touched>]
    ensures { result.now ≡ slice_index_or touched.now number [] }
{
    match touched.get(number) {
        Some(touched) => touched.as_slice(),
        None => &[],
    }
}

fn lists_at(touched: &[Items<Items<Option<Touched>>>], number: usize) -> &[Items<Option<Touched>>]
    ensures { result.now ≡ slice_index_or touched.now number [] }
{
    match touched.get(number) {
        Some(touched) => touched.as_slice(),
        None => &[],
    }
}

fn put_items(
    lines: &mut Vec<Within>,
    at: u32,
    touched: &[Option<Touched>],
    items: &[Item],
) -> Result<(), Memory>
    requires { at + total items.now < 2 ^ 31 }
    ensures { OnOk result (lines.new.items ≡ lines.old.items ++ items_singles at touched.now 0 items.now) }
{
    let mut next = at;
    for (number, item) in items.iter().enumerate() {
        put(lines, next, touched_at(touched, number))?;
        next += size_of(item);
    }
    Ok(())
}

fn put_blocks(
    lines: &mut Vec<Within>,
    at: u32,
    touched: &[Items<Option<Touched>>],
    blocks: &[Items<Item>],
) -> Result<(), Memory>
    requires { at + blocks_size blocks.now < 2 ^ 31 }
    ensures { OnOk result (lines.new.items ≡ lines.old.items ++ blocks_singles at touched.now 0 blocks.now) }
{
    let mut next = at;
    for (number, block) in blocks.iter().enumerate() {
        put_items(lines, next, list_at(touched, number), block.as_slice())?;
        next += bytes_of(block.as_slice());
    }
    Ok(())
}

fn put_function(
    lines: &mut Vec<Within>,
    layout: &Layout,
    touched: &[Items<Items<Option<Touched>>>],
    function: usize,
) -> Result<(), Memory>
    requires { IsRoomy layout.now }
    ensures { OnOk result (lines.new.items ≡ lines.old.items ++ singles_in touched.now layout.now function) }
{
    let blocks = items_of(layout, function);
    if blocks.len() == 0 {
        return Ok(());
    }
    let at = base_of(layout, function);
    put_blocks(lines, at, lists_at(touched, function), blocks)
}

/// The lines of single loads and stores, function by function.
pub fn singles_by(
    alloc: Global,
    layout: &Layout,
    touched: &[Items<Items<Option<Touched>>>],
    order: &[usize],
) -> Result<Vec<Within>, Memory>
    requires { IsRoomy layout.now }
    ensures { IfOk result (λ lines. lines.items ≡ flat_map (singles_in touched.now layout.now) order.now) }
{
    let mut lines = Vec::new(alloc);
    for function in order {
        put_function(&mut lines, layout, touched, *function)?;
    }
    Ok(lines)
}
