// What is claimed of the runs of an image.
ghost use Rattle.std.specs.Prelude.{◌≡◌, ◌<◌, ◌^◌, IfOk, All};
ghost use Rattle.code_flow_system.specs.Claims.{claim_count, claims_of, AreSums, AreClaims};

use frac128::Sum;
use std::alloc::Global;
use std::marker::Model;
use wcc_base::{Compare, Items, Memory};

/// An address that no kept run visits, with the loop of the source and the unrolling factor that
/// it comes from.
#[derive(Clone, Copy)]
pub struct Never {
    pub source: u32,
    pub factor: u32,
    pub at: u32,
}

/// The regions that loads and stores from `first` up to `end` may touch.
#[derive(Clone, Copy)]
pub struct Within {
    pub first: u32,
    pub end: u32,
    pub flash: bool,
    pub spm: bool,
    pub ram: bool,
}

/// A loop's bounds: with the count H of its header and J of its back jump, `min * (H - J) <= H`
/// and `H <= max * (H - J)`. A loop is named by that of the source and the unrolling factor.
#[derive(Clone, Copy)]
pub struct LoopClaim {
    pub source: u32,
    pub factor: u32,
    pub min: u32,
    pub max: u32,
    pub header: u32,
    pub back: u32,
}

/// A restriction between sums of counts.
#[derive(Drop)]
pub struct FactClaim {
    pub left: Sum,
    pub op: Compare,
    pub right: Sum,
}

/// The claims on an image. They are numbered over exits, nevers, regions, loops and facts, in
/// this order, and there are fewer than 2^32.
#[derive(Drop)]
pub struct Claims {
    exits: Items<u32>,
    nevers: Items<Never>,
    regions: Items<Within>,
    loops: Items<LoopClaim>,
    facts: Items<FactClaim>,
}

impl Model for Claims {
    ghost use Rattle.std.specs.Prelude.{◌<◌, ◌^◌};
    ghost use Rattle.code_flow_system.specs.Claims.{Claims, AreClaims, claims_of};

    ghost Value = { Claims };

    ghost view = { λ c. claims_of c.exits c.nevers c.regions c.loops c.facts };

    ghost invariant = { λ c. AreClaims (claims_of c.exits c.nevers c.regions c.loops c.facts) };
}

// A law of a fact's two sums.
fn fact_is_sums(fact: &FactClaim)
    ensures { AreSums fact.now }
{
    let _left = fact.left.terms();
    let _right = fact.right.terms();
}

// The same of each fact.
fn are_sums(facts: &[FactClaim])
    ensures { All AreSums facts.now }
{
    for i in 0..facts.len() {
        fact_is_sums(&facts[i]);
    }
}

/// A copy of fact claims.
fn copied_facts(alloc: Global, facts: &[FactClaim]) -> Result<Vec<FactClaim>, Memory>
    ensures { IfOk result (λ v. v.items ≡ facts.now) }
{
    let mut copies = Vec::new(alloc);
    for i in 0..facts.len() {
        let fact = copied_fact(alloc, &facts[i])?;
        copies.push(fact)?;
    }
    Ok(copies)
}

fn copied_fact(alloc: Global, fact: &FactClaim) -> Result<FactClaim, Memory>
    ensures { IfOk result (λ f. f ≡ fact.now) }
{
    let left = fact.left.copy(alloc)?;
    let right = fact.right.copy(alloc)?;
    Ok(FactClaim {
        left,
        op: fact.op,
        right,
    })
}

impl Claims {
    /// The claims of these lists. It takes no memory.
    pub fn new(
        exits: Vec<u32>,
        nevers: Vec<Never>,
        regions: Vec<Within>,
        loops: Vec<LoopClaim>,
        facts: Vec<FactClaim>,
    ) -> Self
        requires { claim_count (claims_of exits.items nevers.items regions.items loops.items facts.items) < 2 ^ 32 }
        ensures { result ≡ claims_of exits.items nevers.items regions.items loops.items facts.items }
    {
        are_sums(&facts);
        Claims {
            exits: Items::new(exits),
            nevers: Items::new(nevers),
            regions: Items::new(regions),
            loops: Items::new(loops),
            facts: Items::new(facts),
        }
    }

    /// A copy of the claims.
    pub fn copy(&self, alloc: Global) -> Result<Self, Memory>
        ensures { IfOk result (λ c. c ≡ self.now) }
    {
        let exits = Vec::from_slice(alloc, self.exits())?;
        let nevers = Vec::from_slice(alloc, self.nevers())?;
        let regions = Vec::from_slice(alloc, self.regions())?;
        let loops = Vec::from_slice(alloc, self.loops())?;
        let facts = copied_facts(alloc, self.facts())?;
        Ok(Claims::new(exits, nevers, regions, loops, facts))
    }

    /// The addresses of the ECALLs that always exit.
    pub fn exits(&self) -> &[u32]
        ensures value { result.now ≡ self.now.exits }
        ensures few { claim_count self.now < 2 ^ 32 }
    {
        self.exits.as_slice()
    }

    pub fn nevers(&self) -> &[Never]
        ensures value { result.now ≡ self.now.nevers }
        ensures few { claim_count self.now < 2 ^ 32 }
    {
        self.nevers.as_slice()
    }

    pub fn regions(&self) -> &[Within]
        ensures value { result.now ≡ self.now.regions }
        ensures few { claim_count self.now < 2 ^ 32 }
    {
        self.regions.as_slice()
    }

    pub fn loops(&self) -> &[LoopClaim]
        ensures value { result.now ≡ self.now.loops }
        ensures few { claim_count self.now < 2 ^ 32 }
    {
        self.loops.as_slice()
    }

    pub fn facts(&self) -> &[FactClaim]
        ensures value { result.now ≡ self.now.facts }
        ensures valid { AreClaims self.now }
    {
        self.facts.as_slice()
    }
}
