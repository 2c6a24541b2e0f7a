// The pass.
ghost use Rattle.std.specs.Prelude.{IfOk};
ghost use Rattle.high_folded.specs.Done.{IsFolded};
ghost use Rattle.high_ir.specs.Programs.{program_of};
ghost use Rattle.high_pass.specs.Law.{IsLawful};
ghost use Rattle.high_pass.specs.Listing.{listing_of};

use super::copies::copies;
use super::program::folded_program;
use high_ir::{Carried, High};
use high_pass::Pass;
use std::alloc::Global;
use wcc_base::Memory;

/// Computes operators over constants, leaves out operators that give back their operand, and makes choices whose test is a
/// constant.
pub struct Fold;

/// The folded program, and what became of its marks and loops.
fn folded_with_copies(alloc: Global, old: &High) -> Result<Carried, Memory>
    ensures law { IfOk result (λ a. IsLawful (program_of old.now) (program_of a.program) (listing_of a.copies)) }
    ensures folded { IfOk result (λ a. IsFolded (program_of old.now) (program_of a.program) (listing_of a.copies)) }
{
    let (program, kept) = folded_program(alloc, old)?;
    match copies(alloc, old, &kept) {
        Ok(copies) => Ok(Carried { program, copies }),
        Err(memory) => {
            drop(program);
            Err(memory)
        }
    }
}

impl Pass for Fold {
    ghost use Rattle.high_folded.specs.Done.{IsFolded};

    ghost did = { λ pass old new copies. IsFolded old new copies };

    fn run(&self, alloc: Global, old: &High) -> Result<Carried, Memory> {
        folded_with_copies(alloc, old)
    }
}
