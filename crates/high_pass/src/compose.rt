// The copies of copies.
ghost use Rattle.std.specs.Prelude.{◌≡◌, ◌<◌, ◌≤◌, ◌++◌, length, map, All, IfOk, slice_index_or};
ghost use Rattle.std.specs.List.{flat_map};
ghost use Rattle.high_pass.specs.Composing.{CanCompose, at_mark, back_to, composed, copies_by, loops_through, marks_through, nevers_through, no_origin, times};
ghost use Rattle.high_pass.specs.Listing.{listing_of, loop_entry, mark_copies, mark_entry};

use super::origin::{Origin, origins_of};
use high_ir::{Copies, LoopCopies, LoopCopy, MarkCopies, NeverMark};
use std::alloc::Global;
use wcc_base::Memory;

/// The copies of each of these marks, in order.
fn copies_of_marks(alloc: Global, step: &[MarkCopies], marks: &[u32]) -> Result<Vec<u32>, Memory>
    requires { All (λ k. k < length step.now) marks.now }
    ensures { IfOk result (λ v. v.items ≡ flat_map (mark_copies (map mark_entry step.now)) marks.now) }
{
    let mut all = Vec::new(alloc);
    for mark in marks {
        all.extend_from_slice(&step[*mark as usize].new)?;
    }
    Ok(all)
}

fn compose_marks(
    alloc: Global,
    whole: &[MarkCopies],
    step: &[MarkCopies],
) -> Result<Vec<MarkCopies>, Memory>
    requires { All (λ e. All (λ k. k < length step.now) e.new) (map mark_entry whole.now) }
    ensures { IfOk result (λ v. map mark_entry v.items ≡ map (marks_through (map mark_entry step.now)) (map mark_entry whole.now)) }
{
    let mut made = Vec::new(alloc);
    for entry in whole {
        let new = copies_of_marks(alloc, step, &entry.new)?;
        made.push(MarkCopies {
            old: entry.old,
            new,
        })?;
    }
    Ok(made)
}

/// Adds the copies of a loop's copy, by the product of the factors.
fn add_copies(all: &mut Vec<LoopCopy>, copies: &[LoopCopy], factor: u32) -> Result<(), Memory>
    requires small { factor ≤ 67108863 }
    requires factors { All (λ l. l.factor ≤ 64) copies.now }
    ensures { IfOk result (λ _. all.new.items ≡ all.old.items ++ map (times factor) copies.now) }
{
    for copy in copies {
        all.push(LoopCopy {
            id: copy.id,
            factor: factor * copy.factor,
        })?;
    }
    Ok(())
}

fn copies_of_loops(
    alloc: Global,
    step: &[LoopCopies],
    loops: &[LoopCopy],
) -> Result<Vec<LoopCopy>, Memory>
    requires there { All (λ l. l.id < length step.now) loops.now }
    requires small { All (λ l. l.factor ≤ 67108863) loops.now }
    requires factors { All (λ e. All (λ l. l.factor ≤ 64) e.new) (map loop_entry step.now) }
    ensures { IfOk result (λ v. v.items ≡ flat_map (copies_by (map loop_entry step.now)) loops.now) }
{
    let mut all = Vec::new(alloc);
    for copy in loops {
        add_copies(&mut all, &step[copy.id as usize].new, copy.factor)?;
    }
    Ok(all)
}

fn compose_loops(
    alloc: Global,
    whole: &[LoopCopies],
    step: &[LoopCopies],
) -> Result<Vec<LoopCopies>, Memory>
    requires there { All (λ e. All (λ l. l.id < length step.now) e.new) (map loop_entry whole.now) }
    requires small { All (λ e. All (λ l. l.factor ≤ 67108863) e.new) (map loop_entry whole.now) }
    requires factors { All (λ e. All (λ l. l.factor ≤ 64) e.new) (map loop_entry step.now) }
    ensures { IfOk result (λ v. map loop_entry v.items ≡ map (loops_through (map loop_entry step.now)) (map loop_entry whole.now)) }
{
    let mut made = Vec::new(alloc);
    for entry in whole {
        let new = copies_of_loops(alloc, step, &entry.new)?;
        made.push(LoopCopies {
            old: entry.old,
            new,
        })?;
    }
    Ok(made)
}

/// Adds a never mark for each of these marks.
fn add_nevers(all: &mut Vec<NeverMark>, marks: &[u32], never: NeverMark) -> Result<(), Memory>
    ensures { IfOk result (λ _. all.new.items ≡ all.old.items ++ map (at_mark never) marks.now) }
{
    for mark in marks {
        all.push(NeverMark {
            mark: *mark,
            old: never.old,
            factor: never.factor,
        })?;
    }
    Ok(())
}

/// The copies of the earlier never marks.
fn copies_of_nevers(
    alloc: Global,
    step: &[MarkCopies],
    nevers: &[NeverMark],
) -> Result<Vec<NeverMark>, Memory>
    requires { All (λ v. v.mark < length step.now) nevers.now }
    ensures { IfOk result (λ v. v.items ≡ flat_map (nevers_through (map mark_entry step.now)) nevers.now) }
{
    let mut all = Vec::new(alloc);
    for never in nevers {
        add_nevers(&mut all, &step[never.mark as usize].new, *never)?;
    }
    Ok(all)
}

/// Adds never marks, each taken back to the loop that its own is a copy of.
fn add_taken_back(
    all: &mut Vec<NeverMark>,
    nevers: &[NeverMark],
    origins: &[Origin],
) -> Result<(), Memory>
    requires there { All (λ v. v.old < length origins.now) nevers.now }
    requires small { All (λ v. (slice_index_or origins.now v.old no_origin).factor ≤ 67108863) nevers.now }
    requires factors { All (λ v. v.factor ≤ 64) nevers.now }
    ensures { IfOk result (λ _. all.new.items ≡ all.old.items ++ map (λ v. back_to (slice_index_or origins.now v.old no_origin) v) nevers.now) }
{
    for never in nevers {
        let origin = origins[never.old as usize];
        all.push(NeverMark {
            mark: never.mark,
            old: origin.old,
            factor: origin.factor * never.factor,
        })?;
    }
    Ok(())
}

fn compose_nevers(
    alloc: Global,
    loops: u32,
    whole: &Copies,
    step: &Copies,
) -> Result<Vec<NeverMark>, Memory>
    requires { CanCompose loops (listing_of whole.now) (listing_of step.now) }
    ensures { IfOk result (λ v. v.items ≡ (composed (listing_of whole.now) (listing_of step.now)).nevers) }
{
    let origins = origins_of(alloc, &whole.loops, loops)?;
    let mut nevers = copies_of_nevers(alloc, &step.marks, &whole.nevers)?;
    add_taken_back(&mut nevers, &step.nevers, &origins)?;
    Ok(nevers)
}

/// What became of the marks and loops of a first program, where `whole` says what became of them in
/// another, of so many loops, and `step` what became of those.
pub fn compose(alloc: Global, loops: u32, whole: &Copies, step: &Copies) -> Result<Copies, Memory>
    requires { CanCompose loops (listing_of whole.now) (listing_of step.now) }
    ensures { IfOk result (λ c. listing_of c ≡ composed (listing_of whole.now) (listing_of step.now)) }
{
    let marks = compose_marks(alloc, &whole.marks, &step.marks)?;
    let nevers = compose_nevers(alloc, loops, whole, step)?;
    let loops = compose_loops(alloc, &whole.loops, &step.loops)?;
    Ok(Copies {
        marks,
        loops,
        nevers,
    })
}
