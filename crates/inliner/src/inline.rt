ghost use Rattle.std.specs.Prelude.{◌≡◌, IfOk};
ghost use Rattle.high_ir.specs.Programs.{program_of};
ghost use Rattle.high_pass.specs.Listing.{listing_of};
ghost use Rattle.inliner.specs.Inlining.{copies_of_inlined, inlined, swept};
ghost use Rattle.inliner.specs.Sites.{Inlined};
ghost use Rattle.inliner.specs.View.{making_of};

use super::inlining::Making;
use super::settling::{Settled, settle};
use high_again::Again;
use high_ir::{Carried, High};
use high_parts::objects::copied_objects;
use high_pass::Pass;
use high_renumber::{Loose, renumber};
use std::alloc::Global;
use wcc_base::Memory;

/// Puts the bodies of functions in the place of their calls, of each function of at most `limit` nodes, while the budgets
/// hold: callees before their callers, and in each function the calls in the order in which they stand.
#[derive(Clone, Copy)]
pub struct Inline {
    pub limit: u32,
}

/// The program of functions that were gone through so many times.
fn inlined(alloc: Global, limit: u32, old: &High, settled: Settled) -> Result<Carried, Memory>
    requires { making_of settled.making ≡ swept limit (program_of old.now) settled.sweeps }
    ensures program { IfOk result (λ c. program_of c.program ≡ inlined limit (program_of old.now) settled.sweeps) }
    ensures copies { IfOk result (λ c. listing_of c.copies ≡ copies_of_inlined limit (program_of old.now) settled.sweeps) }
{
    let Settled { making, sweeps } = settled;
    if sweeps == 0 {
        drop(making);
        return Again.run(alloc, old);
    }
    let Making { functions, .. } = making;
    match copied_objects(alloc, &old.objects) {
        Ok(objects) => renumber(
            alloc,
            Loose {
                functions,
                objects,
                main: old.main,
                marks: old.marks,
                loops: old.loops,
            },
        ),
        Err(memory) => {
            drop(functions);
            Err(memory)
        }
    }
}

impl Pass for Inline {
    ghost did = { λ pass old new copies. Inlined pass.limit old new copies };

    fn run(&self, alloc: Global, old: &High) -> Result<Carried, Memory> {
        let settled = settle(alloc, self.limit, old)?;
        Ok(inlined(alloc, self.limit, old, settled)?)
    }
}
