// The lines of regions.
ghost use Rattle.std.specs.Prelude.{◌≡◌, IfOk};
ghost use Rattle.claims_definition.specs.Listed.{Laid, regions_of};
ghost use Rattle.claims_lists.specs.Lists.{IsOf};
ghost use Rattle.claims_lists.specs.Places.{IsRoomy};
ghost use Rattle.claims_regions.specs.Seen.{AreSeen};

use super::merging::merged;
use super::walks::{Touched, singles_by};
use claims_lists::{Laying, by_address};
use code_flow_system::Within;
use std::alloc::Global;
use wcc_base::{Items, Memory};

/// The lines of the loads and stores of a program, in the order of their addresses. By function, block and
/// item, those of the start code last, `touched` has the regions of what is loaded or stored there.
pub fn region_lines(
    alloc: Global,
    laying: &Laying<'_>,
    touched: &[Items<Items<Option<Touched>>>],
) -> Result<Vec<Within>, Memory>
    requires { IsRoomy laying.now.layout.now }
    ensures { IfOk result (λ lines. (l : Laid) → IsOf laying.now l → AreSeen l touched.now → lines.items ≡ regions_of l) }
{
    let order = by_address(alloc, laying.placed, laying.layout.functions.len())?;
    let singles = singles_by(alloc, laying.layout, touched, order.as_slice())?;
    let lines = merged(alloc, singles.as_slice())?;
    Ok(lines)
}
