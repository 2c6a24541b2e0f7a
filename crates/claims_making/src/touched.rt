// The regions of what the items of a program touch.
ghost use Rattle.std.specs.Prelude.{◌≡◌, map, IfOk};
ghost use Rattle.low_ir.specs.Placings.{placed_of};
ghost use Rattle.asm_program.specs.Frames.{Memory as Frames};
ghost use Rattle.claims_definition.specs.Touches.{program_touches};
ghost use Rattle.claims_regions.specs.Seen.{seen, view};
ghost use Rattle.claims_touches.specs.Named.{AreTouches};
ghost use Rattle.claims_making.specs.Sights.{region_in, seen_in};

use super::sights::{Sights, seen, touched_by_claim};
use claims_regions::Touched;
use claims_touches::Touch;
use low_ir::LowReg;
use rv_core::Region;
use std::alloc::Global;
use wcc_base::{Items, Memory};

fn touched_in_block(
    alloc: Global,
    sights: &Sights<'_>,
    touches: &[Touch],
) -> Result<Items<Option<Touched>>, Memory>
    ensures { IfOk result (λ all. map view all ≡ map (seen_in sights.now) touches.now) }
{
    let mut all = Vec::new(alloc);
    for touch in touches {
        all.push(seen(sights, *touch))?;
    }
    Ok(Items::new(all))
}

fn touched_in_function(
    alloc: Global,
    sights: &Sights<'_>,
    touches: &[Items<Touch>],
) -> Result<Items<Items<Option<Touched>>>, Memory>
    ensures { IfOk result (λ all. map (map view) all ≡ map (map (seen_in sights.now)) touches.now) }
{
    let mut all = Vec::new(alloc);
    for block in touches {
        all.push(touched_in_block(alloc, sights, block.as_slice())?)?;
    }
    Ok(Items::new(all))
}

fn touched_in_program(
    alloc: Global,
    sights: &Sights<'_>,
    touches: &[Items<Items<Touch>>],
) -> Result<Vec<Items<Items<Option<Touched>>>>, Memory>
    ensures { IfOk result (λ all. map (map (map view)) all.items ≡ map (map (map (seen_in sights.now))) touches.now) }
{
    let mut all = Vec::new(alloc);
    for function in touches {
        all.push(touched_in_function(alloc, sights, function.as_slice())?)?;
    }
    Ok(all)
}

/// The regions of what each item touches, by function, block and item, for arrays in these regions.
pub fn touched_by(
    alloc: Global,
    code: &LowReg,
    regions: &[Region],
    touches: &[Items<Items<Touch>>],
) -> Result<Vec<Items<Items<Option<Touched>>>>, Memory>
    ensures { IfOk result (λ all. (m : Frames) → AreTouches code.now m touches.now → map (map (map view)) all.items ≡ map (map (map (seen (region_in regions.now)))) (program_touches m (placed_of code.now))) }
{
    let claims = touched_by_claim(alloc, regions, code.low.claims.as_slice())?;
    let sights = Sights {
        regions,
        claims: claims.as_slice(),
    };
    let all = touched_in_program(alloc, &sights, touches)?;
    Ok(all)
}
