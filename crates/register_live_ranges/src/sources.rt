// From where each block is come to.
ghost use Rattle.std.specs.Prelude.{◌≡◌, ◌<◌, ◌^◌, [], map, replicate, IfOk, slice_index_or};
ghost use Rattle.low_ir.specs.View.{block_of, end_of};
ghost use Rattle.register_live_ranges.specs.Accesses.{places_in};
ghost use Rattle.register_live_ranges.specs.Found.{sources_of};
ghost use Rattle.register_live_ranges.specs.Rows.{rows_of, with_item};
ghost use Rattle.register_live_ranges.specs.Sources.{blocks_led, end_led};

use low_ir::Block;
use low_ir::instruction::End;
use std::alloc::Global;
use wcc_base::Memory;

/// A block that leads to another, with its first place and its last, which is its end.
#[derive(Clone, Copy)]
pub struct Source {
    pub block: usize,
    pub first: usize,
    pub last: usize,
}

/// By block, those that lead to it.
pub type Rows = Vec<Vec<Source>>;

fn put(rows: &mut Rows, block: u32, source: Source) -> Result<(), Memory>
    ensures { IfOk result (λ _. rows_of rows.new.items ≡ with_item (rows_of rows.old.items) block source) }
{
    match rows.get_mut(block as usize) {
        None => Ok(()),
        Some(row) => Ok(row.push(source)?),
    }
}

fn put_both(rows: &mut Rows, taken: u32, other: u32, source: Source) -> Result<(), Memory>
    ensures { IfOk result (λ _. rows_of rows.new.items ≡ with_item (with_item (rows_of rows.old.items) taken source) other source) }
{
    put(rows, taken, source)?;
    put(rows, other, source)?;
    Ok(())
}

/// The blocks to which an end leads.
fn put_end(rows: &mut Rows, source: Source, end: End) -> Result<(), Memory>
    ensures { IfOk result (λ _. rows_of rows.new.items ≡ end_led (rows_of rows.old.items) source (end_of end)) }
{
    match end {
        End::Jump { block } => Ok(put(rows, block, source)?),
        End::Branch { taken, other, .. } => Ok(put_both(rows, taken, other, source)?),
        End::Return { .. } => Ok(()),
    }
}

fn put_blocks(rows: &mut Rows, blocks: &[Block]) -> Result<(), Memory>
    requires { places_in (map block_of blocks.now) < 2 ^ 64 }
    ensures { IfOk result (λ _. rows_of rows.new.items ≡ blocks_led (rows_of rows.old.items) 0 0 (map block_of blocks.now)) }
{
    let mut first = 0;
    for (number, block) in blocks.iter().enumerate() {
        let last = first + block.code.len();
        let source = Source {
            block: number,
            first,
            last,
        };
        put_end(rows, source, block.end)?;
        first = last + 1;
    }
    Ok(())
}

/// A list for each block.
fn no_sources(alloc: Global, blocks: usize) -> Result<Rows, Memory>
    ensures { IfOk result (λ rows. rows_of rows.items ≡ replicate blocks []) }
{
    let mut rows = Vec::new(alloc);
    for _ in 0..blocks {
        rows.push(Vec::new(alloc))?;
    }
    Ok(rows)
}

/// By block, those that lead to it, in the order of their numbers.
pub fn sources(alloc: Global, blocks: &[Block]) -> Result<Rows, Memory>
    requires { places_in (map block_of blocks.now) < 2 ^ 64 }
    ensures { IfOk result (λ rows. rows_of rows.items ≡ sources_of (map block_of blocks.now)) }
{
    let mut rows = no_sources(alloc, blocks.len())?;
    put_blocks(&mut rows, blocks)?;
    Ok(rows)
}

/// Those that lead to one block.
pub fn sources_in(sources: &[Vec<Source>], block: usize) -> &[Source]
    ensures { result.now ≡ slice_index_or (rows_of sources.now) block [] }
{
    match sources.get(block) {
        None => &[],
        Some(row) => row.as_slice(),
    }
}
