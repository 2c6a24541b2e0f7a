// What became of the marks.
ghost use Rattle.std.specs.Prelude.{◌≡◌, ◌++◌, ◌∷◌, IfOk, OnOk, [], map};
ghost use Rattle.std.specs.List.{range_with_len};
ghost use Rattle.high_pass.specs.Listing.{mark_entry};
ghost use Rattle.high_unrolled.specs.Programs.{copies_of, nevers_from};
ghost use Rattle.unroller.specs.Sorting.{with_copy, with_made};

use super::making::sum;
use high_ir::{MarkCopies, NeverMark};
use high_parts::marks::same_marks;
use high_unrolled::made::Made;
use std::alloc::Global;
use wcc_base::Memory;

/// A copy more in an entry.
fn put(entry: &mut MarkCopies, copy: u32) -> Result<(), Memory>
    ensures { OnOk result (mark_entry entry.exit.now ≡ record { old = entry.entry.now.old; new = entry.entry.now.new.items ++ copy ∷ [] }) }
{
    entry.new.push(copy)?;
    Ok(())
}

/// A copy more of a mark.
fn put_copy(copies: &mut Vec<MarkCopies>, mark: u32, copy: u32) -> Result<(), Memory>
    ensures { OnOk result (map mark_entry copies.new.items ≡ with_copy (map mark_entry copies.old.items) mark copy) }
{
    match copies.get_mut(mark as usize) {
        None => Ok(()),
        Some(entry) => Ok(put(entry, copy)?),
    }
}

/// Where a new mark is the copy of a mark, a copy more of that.
fn put_made(copies: &mut Vec<MarkCopies>, made: Made, number: u32) -> Result<(), Memory>
    ensures { OnOk result (map mark_entry copies.new.items ≡ with_made (map mark_entry copies.old.items) made number) }
{
    match made {
        Made::CopyOf(mark) => Ok(put_copy(copies, mark, number)?),
        Made::Behind(_) => Ok(()),
    }
}

/// The copies of each of the marks below a number, where the new marks have the numbers from there on.
pub fn mark_copies(alloc: Global, marks: u32, made: &[Made]) -> Result<Vec<MarkCopies>, Memory>
    ensures { IfOk result (λ v. map mark_entry v.items ≡ map (copies_of marks made.now) (range_with_len 0 marks)) }
{
    let mut copies = same_marks(alloc, marks)?;
    let mut number = marks;
    for each in made {
        put_made(&mut copies, *each, number)?;
        let next = sum(number, 1)?;
        number = next;
    }
    Ok(copies)
}

/// Where a new mark stands behind a loop, a never mark more.
fn put_never(
    nevers: &mut Vec<NeverMark>,
    factor: u32,
    made: Made,
    number: u32,
) -> Result<(), Memory>
    ensures { OnOk result (nevers.new.items ≡ nevers.old.items ++ nevers_from factor number (made ∷ [])) }
{
    match made {
        Made::CopyOf(_) => Ok(()),
        Made::Behind(id) => Ok(nevers.push(NeverMark {
            mark: number,
            old: id,
            factor,
        })?),
    }
}

/// The never marks among the new marks.
pub fn never_marks(
    alloc: Global,
    factor: u32,
    marks: u32,
    made: &[Made],
) -> Result<Vec<NeverMark>, Memory>
    ensures { IfOk result (λ v. v.items ≡ nevers_from factor marks made.now) }
{
    let mut nevers = Vec::new(alloc);
    let mut number = marks;
    for each in made {
        put_never(&mut nevers, factor, *each, number)?;
        let next = sum(number, 1)?;
        number = next;
    }
    Ok(nevers)
}
