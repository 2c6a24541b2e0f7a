ghost use Rattle.std.specs.Prelude.{IfOk};
ghost use Rattle.high_ir.specs.Programs.{program_of};
ghost use Rattle.high_pass.specs.Law.{IsLawful};
ghost use Rattle.high_pass.specs.Listing.{listing_of};

use high_ir::{Carried, High};
use std::alloc::Global;
use wcc_base::Memory;

/// A pass over a program. `did` is what the pass itself promises of the new program and its copies.
pub trait Pass {
    ghost use Rattle.high_ir.specs.Tree.{Program};
    ghost use Rattle.high_pass.specs.Listing.{Listing};

    ghost did: { Self → Program → Program → Listing → Type 0 };

    fn run(&self, alloc: Global, old: &High) -> Result<Carried, Memory>
        ensures law { IfOk result (λ a. IsLawful (program_of old.now) (program_of a.program) (listing_of a.copies)) }
        ensures did { IfOk result (λ a. did self.now (program_of old.now) (program_of a.program) (listing_of a.copies)) };
}
