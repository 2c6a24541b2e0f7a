ghost use Rattle.std.specs.Prelude.{◌≡◌, IfOk};
ghost use Rattle.high_ir.specs.Programs.{program_of};
ghost use Rattle.high_pass.specs.Composing.{composed, Continues};
ghost use Rattle.high_pass.specs.Law.{FactorsWithin, IsLawful};
ghost use Rattle.high_pass.specs.Listing.{ListsThoseOf, listing_of};

use super::compose::compose;
use super::pass::Pass;
use high_ir::{Carried, Copies, High};
use std::alloc::Global;
use wcc_base::Memory;

/// The answer of a pass, and the copies from the first program on.
#[derive(Drop)]
pub struct Chained {
    pub step: Carried,
    pub whole: Copies,
}

/// Runs a pass behind those that made `old`; `whole` has the copies of all of them.
pub fn chain<P: Pass>(
    alloc: Global,
    old: &High,
    whole: &Copies,
    pass: &P,
) -> Result<Chained, Memory>
    requires lists { ListsThoseOf (program_of old.now) (listing_of whole.now) }
    requires factors { FactorsWithin 67108863 (listing_of whole.now) }
    ensures law { IfOk result (λ c. IsLawful (program_of old.now) (program_of c.step.program) (listing_of c.step.copies)) }
    ensures did { IfOk result (λ c. P.did pass.now (program_of old.now) (program_of c.step.program) (listing_of c.step.copies)) }
    ensures composed { IfOk result (λ c. listing_of c.whole ≡ composed (listing_of whole.now) (listing_of c.step.copies)) }
    ensures continues { IfOk result (λ c. Continues (program_of old.now) (program_of c.step.program) (listing_of whole.now) (listing_of c.whole)) }
{
    let step = pass.run(alloc, old)?;
    match compose(alloc, old.loops, whole, &step.copies) {
        Ok(whole) => Ok(Chained { step, whole }),
        Err(memory) => {
            drop(step);
            Err(memory)
        }
    }
}
