// The first claim that is bad by itself.
ghost use Rattle.std.specs.Prelude.{◌≡◌, ◌+◌, ◌<◌, ◌^◌, ◌&&◌, ◌++◌, length, Some, None};
ghost use Rattle.code_flow_system.specs.Claims.{is_aligned, are_aligned, is_above, is_past, is_filled, exit_flaws, never_flaws, region_flaws, loop_flaws, fact_flaws, flaws};
ghost use Rattle.code_flow.specs.Faults.{first_from};

use code_flow_system::{Claims, FactClaim, LoopClaim, Never, Within};
use frac128::Sum;

fn is_aligned(at: u32) -> bool
    ensures { result ≡ is_aligned at }
{
    at % 4 == 0
}

/// Whether an address is above that of the line before, if there is one.
fn is_above(before: Option<u32>, at: u32) -> bool
    ensures { result ≡ is_above before at }
{
    match before {
        Some(before) => before < at,
        None => true,
    }
}

/// Whether an address isn't below the end of the line before, if there is one.
fn is_past(before: Option<u32>, at: u32) -> bool
    ensures { result ≡ is_past before at }
{
    match before {
        Some(before) => before <= at,
        None => true,
    }
}

fn is_filled(line: Within) -> bool
    ensures { result ≡ is_filled line }
{
    is_aligned(line.first)
        && is_aligned(line.end)
        && line.first < line.end
        && (line.flash || line.spm || line.ram)
}

fn are_aligned(sum: &Sum) -> bool
    ensures { result ≡ are_aligned sum.now }
{
    let terms = sum.terms();
    for i in 0..terms.len() {
        if !is_aligned(terms[i].0) {
            return false;
        }
    }
    true
}

fn exit_flaw(exits: &[u32], from: usize) -> Option<usize>
    requires { from + length exits.now < 2 ^ 33 }
    ensures { result ≡ first_from from (exit_flaws None exits.now) }
{
    let mut before = None;
    for i in 0..exits.len() {
        let at = exits[i];
        if !(is_aligned(at) && is_above(before, at)) {
            return Some(from + i);
        }
        before = Some(at);
    }
    None
}

fn never_flaw(nevers: &[Never], from: usize) -> Option<usize>
    requires { from + length nevers.now < 2 ^ 33 }
    ensures { result ≡ first_from from (never_flaws None nevers.now) }
{
    let mut before = None;
    for i in 0..nevers.len() {
        let at = nevers[i].at;
        if !(is_aligned(at) && is_above(before, at)) {
            return Some(from + i);
        }
        before = Some(at);
    }
    None
}

fn region_flaw(regions: &[Within], from: usize) -> Option<usize>
    requires { from + length regions.now < 2 ^ 33 }
    ensures { result ≡ first_from from (region_flaws None regions.now) }
{
    let mut before = None;
    for i in 0..regions.len() {
        let line = regions[i];
        if !(is_filled(line) && is_past(before, line.first)) {
            return Some(from + i);
        }
        before = Some(line.end);
    }
    None
}

fn loop_flaw(loops: &[LoopClaim], from: usize) -> Option<usize>
    requires { from + length loops.now < 2 ^ 33 }
    ensures { result ≡ first_from from (loop_flaws None loops.now) }
{
    let mut before = None;
    for i in 0..loops.len() {
        let claim = loops[i];
        if !(is_aligned(claim.header) && is_aligned(claim.back) && is_above(before, claim.header)) {
            return Some(from + i);
        }
        before = Some(claim.header);
    }
    None
}

fn fact_flaw(facts: &[FactClaim], from: usize) -> Option<usize>
    requires { from + length facts.now < 2 ^ 33 }
    ensures { result ≡ first_from from (fact_flaws facts.now) }
{
    for i in 0..facts.len() {
        let fact = &facts[i];
        if !(are_aligned(&fact.left) && are_aligned(&fact.right)) {
            return Some(from + i);
        }
    }
    None
}

/// The number of the first bad claim among loops and facts, which are numbered from there on.
fn loop_on(claims: &Claims, from: usize) -> Option<usize>
    requires { from + (length claims.now.loops + length claims.now.facts) < 2 ^ 33 }
    ensures { result ≡ first_from from (loop_flaws None claims.now.loops ++ fact_flaws claims.now.facts) }
{
    let loops = claims.loops();
    match loop_flaw(loops, from) {
        Some(n) => Some(n),
        None => fact_flaw(claims.facts(), from + loops.len()),
    }
}

fn region_on(claims: &Claims, from: usize) -> Option<usize>
    requires { from + (length claims.now.regions + (length claims.now.loops + length claims.now.facts)) < 2 ^ 33 }
    ensures { result ≡ first_from from (region_flaws None claims.now.regions ++ (loop_flaws None claims.now.loops ++ fact_flaws claims.now.facts)) }
{
    let regions = claims.regions();
    match region_flaw(regions, from) {
        Some(n) => Some(n),
        None => loop_on(claims, from + regions.len()),
    }
}

fn never_on(claims: &Claims, from: usize) -> Option<usize>
    requires { from + (length claims.now.nevers + (length claims.now.regions + (length claims.now.loops + length claims.now.facts))) < 2 ^ 33 }
    ensures { result ≡ first_from from (never_flaws None claims.now.nevers ++ (region_flaws None claims.now.regions ++ (loop_flaws None claims.now.loops ++ fact_flaws claims.now.facts))) }
{
    let nevers = claims.nevers();
    match never_flaw(nevers, from) {
        Some(n) => Some(n),
        None => region_on(claims, from + nevers.len()),
    }
}

/// The number of the first claim that is bad by itself.
pub fn first_flaw(claims: &Claims) -> Option<usize>
    ensures { result ≡ first_from 0 (flaws claims.now) }
{
    let exits = claims.exits();
    match exit_flaw(exits, 0) {
        Some(n) => Some(n),
        None => never_on(claims, exits.len()),
    }
}
