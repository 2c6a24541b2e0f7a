// The multipliers of claims that forbid to visit an address, and those of loops.
ghost use Rattle.std.specs.Prelude.{◌≡◌, length, IfOk, MatchOption, None, Some, All};
ghost use Rattle.rv_core.specs.Table.{table_of};
ghost use Rattle.code_flow_system.specs.Certificates.{IsInForm, IsSmall};
ghost use Rattle.path_values.specs.Owed.{owe_at, nevers_by, bounds_by, loops_by};

use crate::owed::most_owed;
use code_flow_system::{Cert, LoopClaim, System};
use loop_walks::Pair;
use rv_core::Costs;
use std::alloc::{AllocError, Global};

/// The multipliers of the never claims; none where a row is wide.
pub fn never_multipliers(
    alloc: Global,
    system: &System,
    costs: &Costs,
    plain: &Cert,
) -> Result<Option<Vec<i128>>, AllocError>
    requires { IsInForm system.now.claims plain.now }
    ensures { IfOk result (λ o. MatchOption o (nevers_by (owe_at (table_of costs.now) system.now plain.now) system.now.claims.nevers ≡ None) (λ v. nevers_by (owe_at (table_of costs.now) system.now plain.now) system.now.claims.nevers ≡ Some v.items)) }
{
    let claims = system.claims().nevers();
    let mut all = Vec::new(alloc);
    for i in 0..claims.len() {
        match most_owed(system, costs, plain, claims[i].at) {
            None => return Ok(None),
            Some(owed) => all.push(owed)?,
        }
    }
    Ok(Some(all))
}

/// The multipliers of a loop: where it may not be entered, with what is left at its header.
fn bounds(
    system: &System,
    costs: &Costs,
    plain: &Cert,
    claim: LoopClaim,
    pair: Pair,
) -> Option<(i128, i128)>
    requires form { IsInForm system.now.claims plain.now }
    requires most { IsSmall pair.most }
    ensures { result ≡ bounds_by (owe_at (table_of costs.now) system.now plain.now) claim pair }
{
    if claim.max != 0 {
        return Some((pair.least, pair.most));
    }
    match most_owed(system, costs, plain, claim.header) {
        None => None,
        Some(owed) => Some((pair.least, pair.most + owed)),
    }
}

/// The multipliers of the loop claims; none where a row is wide.
pub fn loop_multipliers(
    alloc: Global,
    system: &System,
    costs: &Costs,
    plain: &Cert,
    pairs: &[Pair],
) -> Result<Option<Vec<(i128, i128)>>, AllocError>
    requires form { IsInForm system.now.claims plain.now }
    requires long { length pairs.now ≡ length system.now.claims.loops }
    requires small { All (λ p. IsSmall p.most) pairs.now }
    ensures { IfOk result (λ o. MatchOption o (loops_by (owe_at (table_of costs.now) system.now plain.now) system.now.claims.loops pairs.now ≡ None) (λ v. loops_by (owe_at (table_of costs.now) system.now plain.now) system.now.claims.loops pairs.now ≡ Some v.items)) }
{
    let claims = system.claims().loops();
    let mut all = Vec::new(alloc);
    for i in 0..claims.len() {
        match bounds(system, costs, plain, claims[i], pairs[i]) {
            None => return Ok(None),
            Some(bounds) => all.push(bounds)?,
        }
    }
    Ok(Some(all))
}
