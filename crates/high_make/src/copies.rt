// What becomes of the marks and loops of a source.
ghost use Rattle.std.specs.Prelude.{◌≡◌, IfOk, map};
ghost use Rattle.types_tree.specs.View.{program_of};
ghost use Rattle.plan_carried.specs.Sources.{planned_listing};
ghost use Rattle.high_make.specs.Entries.{once};
ghost use Rattle.high_pass.specs.Listing.{listing_of, loop_entry, mark_entry};
ghost use Rattle.plan_runs.specs.Kept.{same_mark, same_marks};

use facts_definitions::Facts;
use high_ir::{Copies, LoopCopies, LoopCopy, MarkCopies};
use make_loops::{Renumbered, loops_of};
use make_pieces::numbers::offset;
use std::alloc::Global;
use types_tree::program::Program;
use wcc_base::Memory;

/// A mark that is its own copy.
fn mark_copy(alloc: Global, mark: u32) -> Result<MarkCopies, Memory>
    ensures { IfOk result (λ c. mark_entry c ≡ same_mark mark) }
{
    let mut new = Vec::new(alloc);
    new.push(mark)?;
    Ok(MarkCopies { old: mark, new })
}

fn mark_copies(alloc: Global, marks: u32) -> Result<Vec<MarkCopies>, Memory>
    ensures { IfOk result (λ v. map mark_entry v.items ≡ same_marks marks) }
{
    let mut copies = Vec::new(alloc);
    for mark in 0..marks {
        copies.push(mark_copy(alloc, mark)?)?;
    }
    Ok(copies)
}

/// A loop whose one copy has its starts.
fn loop_copy(alloc: Global, numbers: Renumbered) -> Result<LoopCopies, Memory>
    ensures { IfOk result (λ c. loop_entry c ≡ once numbers) }
{
    let mut new = Vec::new(alloc);
    new.push(LoopCopy {
        id: numbers.new,
        factor: 1,
    })?;
    Ok(LoopCopies {
        old: numbers.old,
        new,
    })
}

fn loop_copies(alloc: Global, loops: &[Renumbered]) -> Result<Vec<LoopCopies>, Memory>
    ensures { IfOk result (λ v. map loop_entry v.items ≡ map once loops.now) }
{
    let mut copies = Vec::new(alloc);
    for numbers in loops {
        copies.push(loop_copy(alloc, *numbers)?)?;
    }
    Ok(copies)
}

/// The copies of the functions, markers and loops of a source in its plan.
pub fn copies(alloc: Global, source: &Program, facts: &Facts) -> Result<Copies, Memory>
    ensures { IfOk result (λ c. listing_of c ≡ planned_listing (program_of source.now) facts.now) }
{
    let functions = offset(0, source.functions.len())?;
    let count = offset(functions, facts.markers.as_slice().len())?;
    let numbers = loops_of(alloc, &source.functions)?;
    let loops = loop_copies(alloc, &numbers)?;
    let marks = mark_copies(alloc, count)?;
    Ok(Copies {
        marks,
        loops,
        nevers: Vec::new(alloc),
    })
}
