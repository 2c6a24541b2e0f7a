// The copies of marks and loops, from what each is a copy of.
ghost use Rattle.std.specs.Prelude.{◌≡◌, ◌<◌, [], All, IfOk, map};
ghost use Rattle.std.specs.List.{range_with_len};
ghost use Rattle.high_pass.specs.Listing.{loop_entry, mark_entry};
ghost use Rattle.high_renumber.specs.Numbered.{loop_at, mark_at};

use super::numbers::offset;
use high_ir::{LoopCopies, LoopCopy, MarkCopies};
use std::alloc::Global;
use wcc_base::Memory;

/// Marks without copies.
fn no_marks(alloc: Global, marks: u32) -> Result<Vec<MarkCopies>, Memory>
    ensures { IfOk result (λ v. map mark_entry v.items ≡ map (mark_at []) (range_with_len 0 marks)) }
{
    let mut copies = Vec::new(alloc);
    for old in 0..marks {
        copies.push(MarkCopies {
            old,
            new: Vec::new(alloc),
        })?;
    }
    Ok(copies)
}

/// The copies of marks, by the marks that each new one is a copy of.
pub fn mark_copies(alloc: Global, marks: u32, origins: &[u32]) -> Result<Vec<MarkCopies>, Memory>
    requires { All (λ o. o < marks) origins.now }
    ensures { IfOk result (λ v. map mark_entry v.items ≡ map (mark_at origins.now) (range_with_len 0 marks)) }
{
    let mut copies = no_marks(alloc, marks)?;
    for i in 0..origins.len() {
        let number = offset(0, i)?;
        copies[origins[i] as usize].new.push(number)?;
    }
    Ok(copies)
}

/// Loops without copies.
fn no_loops(alloc: Global, loops: u32) -> Result<Vec<LoopCopies>, Memory>
    ensures { IfOk result (λ v. map loop_entry v.items ≡ map (loop_at []) (range_with_len 0 loops)) }
{
    let mut copies = Vec::new(alloc);
    for old in 0..loops {
        copies.push(LoopCopies {
            old,
            new: Vec::new(alloc),
        })?;
    }
    Ok(copies)
}

/// The copies of loops, by the loops that each new one is a copy of.
pub fn loop_copies(alloc: Global, loops: u32, origins: &[u32]) -> Result<Vec<LoopCopies>, Memory>
    requires { All (λ o. o < loops) origins.now }
    ensures { IfOk result (λ v. map loop_entry v.items ≡ map (loop_at origins.now) (range_with_len 0 loops)) }
{
    let mut copies = no_loops(alloc, loops)?;
    for i in 0..origins.len() {
        let id = offset(0, i)?;
        copies[origins[i] as usize]
            .new
            .push(LoopCopy { id, factor: 1 })?;
    }
    Ok(copies)
}
