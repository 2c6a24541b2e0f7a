// The places of marks.
ghost use Rattle.std.specs.Prelude.{◌≡◌, ◌++◌, ℕ, map, IfOk, OnOk};
ghost use Rattle.std.specs.List.{flat_map};
ghost use Rattle.claims_definition.specs.Listed.{Laid, places_of};
ghost use Rattle.claims_lists.specs.Lists.{IsOf};
ghost use Rattle.claims_lists.specs.Marks.{marked, marked_from, marks_in, places_among};
ghost use Rattle.claims_lists.specs.Outlines.{block_mark};

use super::laying::{Laying, blocks_of, start_at, starts_of};
use super::order::by_address;
use low_ir::Block;
use std::alloc::Global;
use wcc_base::Memory;

/// A mark, and the address of a block that has it.
#[derive(Clone, Copy)]
pub struct Marked {
    pub mark: u32,
    pub at: u32,
}

fn put(marks: &mut Vec<Marked>, mark: Option<u32>, at: u32) -> Result<(), Memory>
    ensures { OnOk result (marks.new.items ≡ marks.old.items ++ marked mark at) }
{
    if let Some(mark) = mark {
        marks.push(Marked { mark, at })?;
    }
    Ok(())
}

fn put_blocks(marks: &mut Vec<Marked>, starts: &[u32], blocks: &[Block]) -> Result<(), Memory>
    ensures { OnOk result (marks.new.items ≡ marks.old.items ++ marked_from starts.now 0 (map block_mark blocks.now)) }
{
    for (number, block) in blocks.iter().enumerate() {
        put(marks, block.mark, start_at(starts, number))?;
    }
    Ok(())
}

fn put_function(marks: &mut Vec<Marked>, laying: &Laying<'_>, function: usize) -> Result<(), Memory>
    ensures { OnOk result (marks.new.items ≡ marks.old.items ++ marks_in laying.now.code.now laying.now.layout.now function) }
{
    let starts = starts_of(laying.layout, function);
    put_blocks(marks, starts, blocks_of(laying.code, function))
}

fn marks_by(alloc: Global, laying: &Laying<'_>, order: &[usize]) -> Result<Vec<Marked>, Memory>
    ensures { IfOk result (λ marks. marks.items ≡ flat_map (marks_in laying.now.code.now laying.now.layout.now) order.now) }
{
    let mut marks = Vec::new(alloc);
    for function in order {
        put_function(&mut marks, laying, *function)?;
    }
    Ok(marks)
}

/// The blocks that have marks, in the order of their addresses.
pub fn marked_places(alloc: Global, laying: &Laying<'_>) -> Result<Vec<Marked>, Memory>
    ensures { IfOk result (λ marks. (l : Laid) → IsOf laying.now l → (mark : ℕ) → places_among mark marks.items ≡ places_of l mark) }
{
    let order = by_address(alloc, laying.placed, laying.layout.functions.len())?;
    let marks = marks_by(alloc, laying, order.as_slice())?;
    Ok(marks)
}
