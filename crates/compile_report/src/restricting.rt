// The restrictions of a source, as claims over the addresses of copy lines.
ghost use Rattle.std.specs.Prelude.{◌≡◌, ◌≤◌, length, map, IfOk};
ghost use Rattle.promise_report.specs.Facts as told;
ghost use Rattle.compile_report.specs.Restricted.{as_claim};

use code_flow_system::FactClaim;
use facts_definitions::Facts;
use flow_facts::{AddressFact, Places, translate};
use std::alloc::Global;
use wcc_base::{Items, Memory};
use wcc_report::CopyLine;

/// The addresses of each line.
fn places_in(alloc: Global, lines: &[CopyLine]) -> Result<Items<Items<u32>>, Memory>
    ensures { IfOk result (λ ps. ps ≡ told.places_in lines.now) }
{
    let mut places = Vec::new(alloc);
    for line in lines {
        let addresses = Vec::from_slice(alloc, line.places.as_slice())?;
        places.push(Items::new(addresses))?;
    }
    Ok(Items::new(places))
}

/// Where functions and markers stand, by their lines: those of the functions come first.
fn places_by(alloc: Global, facts: &Facts, lines: &[CopyLine]) -> Result<Places, Memory>
    requires { length facts.now.functions ≤ length lines.now }
    ensures { IfOk result (λ ps. ps ≡ told.places_by facts.now lines.now) }
{
    let functions = facts.functions.as_slice().len();
    let of_functions = places_in(alloc, &lines[..functions])?;
    let of_markers = places_in(alloc, &lines[functions..])?;
    Ok(Places {
        of_functions,
        of_markers,
    })
}

/// The claim that a restriction makes; where it stands in the source is no part of it.
fn as_claim(alloc: Global, fact: &AddressFact) -> Result<FactClaim, Memory>
    ensures { IfOk result (λ c. c ≡ as_claim fact.now) }
{
    let left = fact.left.copy(alloc)?;
    let right = fact.right.copy(alloc)?;
    Ok(FactClaim {
        left,
        op: fact.op,
        right,
    })
}

fn as_claims(alloc: Global, facts: &[AddressFact]) -> Result<Vec<FactClaim>, Memory>
    ensures { IfOk result (λ cs. cs.items ≡ map as_claim facts.now) }
{
    let mut claims = Vec::new(alloc);
    for fact in facts {
        let claim = as_claim(alloc, fact)?;
        claims.push(claim)?;
    }
    Ok(claims)
}

/// The restrictions of a source as claims on the image, by the copy lines of its functions and markers.
pub fn restricted(
    alloc: Global,
    facts: &Facts,
    lines: &[CopyLine],
) -> Result<Vec<FactClaim>, Memory>
    requires { length facts.now.functions ≤ length lines.now }
    ensures { IfOk result (λ cs. told.AreFactLines facts.now (told.places_by facts.now lines.now) facts.now.restrictions cs.items) }
{
    let places = places_by(alloc, facts, lines)?;
    let translated = translate(alloc, facts, &places)?;
    let claims = as_claims(alloc, &translated)?;
    Ok(claims)
}
