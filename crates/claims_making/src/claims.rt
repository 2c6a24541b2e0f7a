// All claims of a laid program.
ghost use Rattle.std.specs.Prelude.{◌≡◌, [], IfOk};
ghost use Rattle.claims_definition.specs.Listed.{Laid, claims_of};
ghost use Rattle.claims_lists.specs.Places.{IsRoomy};
ghost use Rattle.claims_making.specs.Whole.{IsWhole};

use super::touched::touched_by;
use asm_rows::exits;
use claims_lists::{Laying, loop_claims};
use claims_regions::region_lines;
use claims_touches::Touch;
use code_flow_system::{Claims, LoopClaim, Within};
use rv_core::Region;
use std::alloc::Global;
use wcc_base::{Items, Memory};

/// The claims of these lists, of which there must be fewer than 2^32.
fn claims_in(
    alloc: Global,
    exits: Vec<u32>,
    regions: Vec<Within>,
    loops: Vec<LoopClaim>,
) -> Result<Claims, Memory>
    ensures { IfOk result (λ claims. claims ≡ record { exits = exits.items; nevers = []; regions = regions.items; loops = loops.items; facts = [] }) }
{
    let count = exits.len() as u128 + regions.len() as u128 + loops.len() as u128;
    if count >= 0x1_0000_0000 {
        return Err(Memory);
    }
    Ok(Claims::new(exits, Vec::new(alloc), regions, loops, Vec::new(alloc)))
}

/// The claims on exits, on the regions of loads and stores, and on loops. The regions are those of arrays, by number;
/// arrays that the list doesn't reach lie in RAM. By function, block and item, `touches` has what each item touches.
pub fn claims_of(
    alloc: Global,
    laying: &Laying<'_>,
    regions: &[Region],
    touches: &[Items<Items<Touch>>],
) -> Result<Claims, Memory>
    requires { IsRoomy laying.now.layout.now }
    ensures { IfOk result (λ claims. (l : Laid) → IsWhole laying.now regions.now touches.now l → claims ≡ claims_of l) }
{
    let touched = touched_by(alloc, laying.code, regions, touches)?;
    let exits = exits(alloc, laying.layout)?;
    let lines = region_lines(alloc, laying, touched.as_slice())?;
    let loops = loop_claims(alloc, laying)?;
    let claims = claims_in(alloc, exits, lines, loops)?;
    Ok(claims)
}
