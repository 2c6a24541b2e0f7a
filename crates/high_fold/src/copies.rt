// What becomes of the marks and loops of a program.
ghost use Rattle.std.specs.Prelude.{◌≡◌, ◌+◌, ◌<◌, IfOk, drop, if◌then◌else◌, map};
ghost use Rattle.std.specs.List.{range_with_len};
ghost use Rattle.high_ir.specs.Programs.{program_of};
ghost use Rattle.high_folded.specs.Folded.{kept_in};
ghost use Rattle.high_folded.specs.Listed.{folded_listing, gone, is_next, loop_entries, stays};
ghost use Rattle.high_pass.specs.Listing.{listing_of, loop_entry};

use high_ir::{Copies, High, LoopCopies, LoopCopy};
use high_parts::marks::same_marks;
use std::alloc::Global;
use wcc_base::Memory;

/// A loop that is left out.
fn gone(alloc: Global, old: u32) -> LoopCopies
    ensures { loop_entry result ≡ gone old }
{
    LoopCopies {
        old,
        new: Vec::new(alloc),
    }
}

/// A loop that stays, with its new number.
fn stays(alloc: Global, old: u32, id: u32) -> Result<LoopCopies, Memory>
    ensures { IfOk result (λ c. loop_entry c ≡ stays old id) }
{
    let mut new = Vec::new(alloc);
    new.push(LoopCopy { id, factor: 1 })?;
    Ok(LoopCopies { old, new })
}

/// Whether a loop is the next one that stays.
#[tactic(auto, using(crate::proofs::Entries::next_is, crate::proofs::Entries::next_none))]
fn is_next(kept: &[u32], next: u32, old: u32) -> bool
    ensures { result ≡ is_next old (drop next kept.now) }
{
    let index = next as usize;
    if index < kept.len() {
        return kept[index] == old;
    }
    false
}

/// A loop that stays or is left out.
fn loop_copy(alloc: Global, is_kept: bool, old: u32, next: u32) -> Result<LoopCopies, Memory>
    ensures { IfOk result (λ c. loop_entry c ≡ (if is_kept then stays old next else gone old)) }
{
    if is_kept {
        return Ok(stays(alloc, old, next)?);
    }
    Ok(gone(alloc, old))
}

/// The number of the next loop that stays, behind one that stays or is left out.
fn next_behind(is_kept: bool, next: u32) -> u32
    requires { next < 4294967295 }
    ensures { result ≡ (if is_kept then next + 1 else next) }
{
    if is_kept {
        return next + 1;
    }
    next
}

/// The loops of a program of so many, of which these stay.
fn loop_copies(alloc: Global, loops: u32, kept: &[u32]) -> Result<Vec<LoopCopies>, Memory>
    ensures { IfOk result (λ v. map loop_entry v.items ≡ loop_entries 0 (range_with_len 0 loops) kept.now) }
{
    let mut copies = Vec::new(alloc);
    let mut next = 0;
    for old in 0..loops {
        let is_kept = is_next(kept, next, old);
        copies.push(loop_copy(alloc, is_kept, old, next)?)?;
        next = next_behind(is_kept, next);
    }
    Ok(copies)
}

/// The copies of marks and loops, where these loops stay.
pub fn copies(alloc: Global, old: &High, kept: &[u32]) -> Result<Copies, Memory>
    requires { kept.now ≡ kept_in (program_of old.now).functions }
    ensures { IfOk result (λ c. listing_of c ≡ folded_listing (program_of old.now)) }
{
    let marks = same_marks(alloc, old.marks)?;
    let loops = loop_copies(alloc, old.loops, kept)?;
    Ok(Copies {
        marks,
        loops,
        nevers: Vec::new(alloc),
    })
}
