// Marks that stay as they are.
ghost use Rattle.std.specs.Prelude.{◌≡◌, IfOk, map};
ghost use Rattle.high_pass.specs.Listing.{mark_entry};
ghost use Rattle.high_parts.specs.Same.{same_mark, same_marks};

use high_ir::MarkCopies;
use std::alloc::Global;
use wcc_base::Memory;

fn same_mark(alloc: Global, mark: u32) -> Result<MarkCopies, Memory>
    ensures { IfOk result (λ c. mark_entry c ≡ same_mark mark) }
{
    let mut new = Vec::new(alloc);
    new.push(mark)?;
    Ok(MarkCopies { old: mark, new })
}

/// So many marks, each its own copy.
pub fn same_marks(alloc: Global, marks: u32) -> Result<Vec<MarkCopies>, Memory>
    ensures { IfOk result (λ v. map mark_entry v.items ≡ same_marks marks) }
{
    let mut copies = Vec::new(alloc);
    for mark in 0..marks {
        copies.push(same_mark(alloc, mark)?)?;
    }
    Ok(copies)
}
