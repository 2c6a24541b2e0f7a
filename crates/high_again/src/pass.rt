// The pass.
ghost use Rattle.std.specs.Prelude.{IfOk};
ghost use Rattle.high_ir.specs.Programs.{program_of};
ghost use Rattle.high_pass.specs.Law.{IsLawful};
ghost use Rattle.high_pass.specs.Listing.{listing_of};
ghost use Rattle.high_again.specs.Same.{IsSame};

use super::copies::same_copies;
use super::program::copied_program;
use high_ir::{Carried, High};
use high_pass::Pass;
use std::alloc::Global;
use wcc_base::Memory;

/// Makes the same program again.
pub struct Again;

fn made_again(alloc: Global, old: &High) -> Result<Carried, Memory>
    ensures law { IfOk result (λ a. IsLawful (program_of old.now) (program_of a.program) (listing_of a.copies)) }
    ensures same { IfOk result (λ a. IsSame (program_of old.now) (program_of a.program) (listing_of a.copies)) }
{
    let program = copied_program(alloc, old)?;
    match same_copies(alloc, old) {
        Ok(copies) => Ok(Carried { program, copies }),
        Err(memory) => {
            drop(program);
            Err(memory)
        }
    }
}

impl Pass for Again {
    ghost use Rattle.high_again.specs.Same.{IsSame};

    ghost did = { λ pass old new copies. IsSame old new copies };

    fn run(&self, alloc: Global, old: &High) -> Result<Carried, Memory> {
        made_again(alloc, old)
    }
}
