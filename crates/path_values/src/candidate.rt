// A certificate with nothing for claims that forbid to visit an address.
ghost use Rattle.std.specs.Prelude.{◌≡◌, IfOk};
ghost use Rattle.path_places.specs.Duals.{both_of};
ghost use Rattle.path_values.specs.Plain.{plain_of};

use code_flow_system::{Cert, Flow, Mark, System};
use loop_walks::Pair;
use std::alloc::{AllocError, Global};
use wcc_base::Items;

/// Multipliers of loops as a certificate has them.
fn both_of(alloc: Global, pairs: &[Pair]) -> Result<Vec<(i128, i128)>, AllocError>
    ensures { IfOk result (λ v. v.items ≡ both_of pairs.now) }
{
    let mut both = Vec::new(alloc);
    for i in 0..pairs.len() {
        both.push((pairs[i].least, pairs[i].most))?;
    }
    Ok(both)
}

/// The certificate with these potentials and multipliers of loops, and none of never claims.
pub fn plain(
    alloc: Global,
    system: &System,
    potentials: Vec<(u32, i128)>,
    pairs: &[Pair],
) -> Result<Cert, AllocError>
    ensures { IfOk result (λ c. c ≡ plain_of system.now.claims potentials.items pairs.now) }
{
    let nevers = vec![in alloc; 0; system.claims().nevers().len()]?;
    let loops = both_of(alloc, pairs)?;
    Ok(Cert {
        cycles: 0,
        mark: Mark::Neither,
        scale: 1,
        potentials: Items::new(potentials),
        nevers: Items::new(nevers),
        loops: Items::new(loops),
        facts: Items::new(Vec::new(alloc)),
        flow: Flow {
            unit: 0,
            parts: Items::new(Vec::new(alloc)),
        },
    })
}
