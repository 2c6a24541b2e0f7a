// Marks and loops that are their own copies.
ghost use Rattle.std.specs.Prelude.{◌≡◌, IfOk, map};
ghost use Rattle.std.specs.List.{range_with_len};
ghost use Rattle.high_ir.specs.Programs.{program_of};
ghost use Rattle.high_pass.specs.Listing.{listing_of, loop_entry};
ghost use Rattle.high_again.specs.Same.{same_listing, same_loop};

use high_ir::{Copies, High, LoopCopies, LoopCopy};
use high_parts::marks::same_marks;
use std::alloc::Global;
use wcc_base::Memory;

fn same_loop(alloc: Global, id: u32) -> Result<LoopCopies, Memory>
    ensures { IfOk result (λ c. loop_entry c ≡ same_loop id) }
{
    let mut new = Vec::new(alloc);
    new.push(LoopCopy { id, factor: 1 })?;
    Ok(LoopCopies { old: id, new })
}

fn same_loops(alloc: Global, loops: u32) -> Result<Vec<LoopCopies>, Memory>
    ensures { IfOk result (λ v. map loop_entry v.items ≡ map same_loop (range_with_len 0 loops)) }
{
    let mut copies = Vec::new(alloc);
    for id in 0..loops {
        copies.push(same_loop(alloc, id)?)?;
    }
    Ok(copies)
}

/// The marks and loops of a program, each its own copy.
pub fn same_copies(alloc: Global, program: &High) -> Result<Copies, Memory>
    ensures { IfOk result (λ c. listing_of c ≡ same_listing (program_of program.now)) }
{
    let marks = same_marks(alloc, program.marks)?;
    let loops = same_loops(alloc, program.loops)?;
    Ok(Copies {
        marks,
        loops,
        nevers: Vec::new(alloc),
    })
}
