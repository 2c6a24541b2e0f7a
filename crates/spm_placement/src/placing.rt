// The placement of chosen items.
ghost use Rattle.std.specs.Prelude.{◌≡◌, ℕ, ◌+◌, ◌<◌, ◌==◌, ◌||◌, false, length, IfOk};
ghost use Rattle.image_frames.specs.Placings.{HasPlaced, is_among, mark_at};

use image_memory::Placement;
use std::alloc::Global;
use wcc_base::Memory;

/// Marks a number, if it is one of those that have a mark: these from the first one on.
#[tactic(auto, using(crate::proofs::Marks::mark_below, crate::proofs::Marks::mark_above, crate::proofs::Marks::mark_there))]
fn mark(marks: &mut [bool], first: usize, number: u32)
    ensures long { length marks.new ≡ length marks.old }
    ensures marks { (k : ℕ) → k < length marks.old → mark_at marks.new k ≡ (mark_at marks.old k || (number == first + k)) }
{
    let number = number as usize;
    if number < first {
        return;
    }
    if number - first >= marks.len() {
        return;
    }
    marks[number - first] = true;
}

/// Marks the numbers of a list.
fn mark_all(marks: &mut [bool], first: usize, numbers: &[u32])
    requires { (k : ℕ) → k < length marks.now → mark_at marks.now k ≡ false }
    ensures long { length marks.new ≡ length marks.old }
    ensures marks { (k : ℕ) → k < length marks.old → mark_at marks.new k ≡ is_among numbers.now (first + k) }
{
    for number in numbers {
        mark(marks, first, *number);
    }
}

/// Which of so many numbers from the first one on are in a list.
fn marks_of(alloc: Global, numbers: &[u32], first: usize, count: usize) -> Result<Vec<bool>, Memory>
    ensures long { IfOk result (λ marks. length marks.items ≡ count) }
    ensures marks { IfOk result (λ marks. (k : ℕ) → k < count → mark_at marks.items k ≡ is_among numbers.now (first + k)) }
{
    let mut marks = vec![in alloc; false; count]?;
    mark_all(&mut marks, first, numbers);
    Ok(marks)
}

/// The placement that has exactly the items with these numbers in the scratchpad, of a program with so many functions and
/// arrays.
#[tactic(auto, using(crate::proofs::Marks::placed_is))]
pub fn placement(
    alloc: Global,
    chosen: &[u32],
    functions: usize,
    arrays: usize,
) -> Result<Placement, Memory>
    ensures { IfOk result (λ placement. HasPlaced chosen.now functions arrays placement) }
{
    let own = marks_of(alloc, chosen, 0, functions)?;
    let objects = marks_of(alloc, chosen, functions, arrays)?;
    Ok(Placement {
        functions: own,
        objects,
    })
}
