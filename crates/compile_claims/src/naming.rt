// Loop claims by the loops of the source.
ghost use Rattle.std.specs.Prelude.{◌≡◌, ◌+◌, ◌<◌, ◌^◌, [], length, map, slice_index_or, All, IfOk};
ghost use Rattle.std.specs.List.{flat_map};
ghost use Rattle.code_flow_system.specs.Claims.{claim_count};
ghost use Rattle.high_pass.specs.Composing.{no_origin};
ghost use Rattle.high_pass.specs.Listing.{listing_of, loop_entry};
ghost use Rattle.compile_claims.specs.Named.{AreHanded, by_entries, nevers_at, renamed};

use super::nevers::nevers_of;
use code_flow_system::{Claims, FactClaim, LoopClaim};
use high_ir::{Copies, LoopCopies};
use high_pass::origin::{Origin, origins_of};
use std::alloc::Global;
use wcc_base::{Items, Memory};

/// The claim with the loop of the source, numbered from 1 on.
fn renamed(claim: LoopClaim, origin: Origin) -> LoopClaim
    requires { origin.old < 4294967295 }
    ensures { result ≡ renamed origin claim }
{
    LoopClaim {
        source: origin.old + 1,
        factor: origin.factor,
        ..claim
    }
}

fn loops_by_source(
    alloc: Global,
    claims: &[LoopClaim],
    origins: &[Origin],
) -> Result<Vec<LoopClaim>, Memory>
    requires there { All (λ c. c.source < length origins.now) claims.now }
    requires small { All (λ c. (slice_index_or origins.now c.source no_origin).old < 4294967295) claims.now }
    ensures { IfOk result (λ v. v.items ≡ map (λ c. renamed (slice_index_or origins.now c.source no_origin) c) claims.now) }
{
    let mut loops = Vec::new(alloc);
    for claim in claims {
        let origin = origins[claim.source as usize];
        loops.push(renamed(*claim, origin))?;
    }
    Ok(loops)
}

/// The loop claims with each loop named by that of the source of which it is a copy; there are so many loops.
fn loops_named(
    alloc: Global,
    claims: &[LoopClaim],
    copies: &[LoopCopies],
    loops: u32,
) -> Result<Vec<LoopClaim>, Memory>
    requires there { All (λ c. c.source < loops) claims.now }
    requires listed { All (λ e. All (λ l. l.id < loops) e.new) (map loop_entry copies.now) }
    requires small { All (λ e. e.old < 4294967295) copies.now }
    ensures { IfOk result (λ v. v.items ≡ map (by_entries (map loop_entry copies.now)) claims.now) }
{
    let origins = origins_of(alloc, copies, loops)?;
    let named = loops_by_source(alloc, claims, &origins)?;
    Ok(named)
}

/// The claims as they are handed on: each loop by that of the source of which it is a copy, each address of a never mark, and
/// these restrictions; `copies` lists the copies of each loop and the never marks, `loops` is how many loops there are, `places`
/// has the addresses of each mark.
pub fn by_source(
    alloc: Global,
    claims: &Claims,
    copies: &Copies,
    loops: u32,
    places: &[Items<u32>],
    facts: Vec<FactClaim>,
) -> Result<Claims, Memory>
    requires there { All (λ c. c.source < loops) claims.now.loops }
    requires listed { All (λ e. All (λ l. l.id < loops) e.new) (listing_of copies.now).loops }
    requires small { All (λ e. e.old < 4294967295) copies.now.loops.items }
    requires nevers { All (λ v. v.old < 4294967295) copies.now.nevers.items }
    requires few { claim_count claims.now + length (flat_map (nevers_at places.now) copies.now.nevers.items) + length facts.items < 2 ^ 32 }
    requires plain { claims.now.nevers ≡ [] }
    requires none { claims.now.facts ≡ [] }
    ensures handed { IfOk result (AreHanded (listing_of copies.now) places.now claims.now) }
    ensures facts { IfOk result (λ made. made.facts ≡ facts.items) }
{
    let named = loops_named(alloc, claims.loops(), &copies.loops, loops)?;
    let nevers = nevers_of(alloc, places, &copies.nevers)?;
    let exits = Vec::from_slice(alloc, claims.exits())?;
    let regions = Vec::from_slice(alloc, claims.regions())?;
    Ok(Claims::new(exits, nevers, regions, named, facts))
}
