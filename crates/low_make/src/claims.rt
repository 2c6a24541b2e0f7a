// The numbers of claims.
ghost use Rattle.std.specs.Prelude.{◌≡◌, ◌++◌, IfOk, map};
ghost use Rattle.low_ir.specs.View.{claim_of};
ghost use Rattle.low_make.specs.View.{claims_of};
ghost use Rattle.lower_definition.specs.Calls.{claims_among, numbered};

use lower_coder::numbers::sum;
use std::alloc::Global;
use wcc_base::Memory;

/// The claims of a function's array parameters, from a number on; one for which nothing is passed has none.
pub fn numbered(alloc: Global, first: u32, claims: &[Vec<u32>]) -> Result<Vec<Option<u32>>, Memory>
    ensures { IfOk result (λ n. n.items ≡ numbered first (claims_of claims.now)) }
{
    let mut numbers = Vec::new(alloc);
    let mut next = first;
    for claim in claims {
        if claim.is_empty() {
            numbers.push(None)?;
        } else {
            numbers.push(Some(next))?;
            next = sum(next, 1)?;
        }
    }
    Ok(numbers)
}

/// The claims behind others.
pub fn add_claims(alloc: Global, claims: &[Vec<u32>], all: &mut Vec<Vec<u32>>) -> Result<(), Memory>
    ensures { IfOk result (λ _. map claim_of all.new.items ≡ map claim_of all.old.items ++ claims_among (claims_of claims.now)) }
{
    for claim in claims {
        if !claim.is_empty() {
            all.push(Vec::from_slice(alloc, claim)?)?;
        }
    }
    Ok(())
}
