// A flow over a unit, listed move by move.
ghost use Rattle.std.specs.Prelude.{◌≡◌, ◌<◌, ◌^◌, length, IfOk, All};
ghost use Rattle.code_flow_system.specs.Systems.{AreAscending};
ghost use Rattle.code_flow_system.specs.Certificates.{PartsAscend, IsPart};

use crate::residues::product;
use crate::units::MOST;
use code_flow_system::{Move, Part};
use path_fact_columns::parts_of;
use std::alloc::{AllocError, Global};

/// An amount over a unit; 0 where it is too great there, or no whole number.
fn whole(amount: u128, unit: u64) -> u128
    ensures { result < 2 ^ 78 }
{
    let whole = product(amount, u128::from(unit));
    if whole < MOST { whole } else { 0 }
}

/// Amounts over a unit.
fn all_whole(alloc: Global, amounts: &[u128], unit: u64) -> Result<Vec<u128>, AllocError>
    ensures long { IfOk result (λ v. length v.items ≡ length amounts.now) }
    ensures small { IfOk result (λ v. All (λ u. u < 2 ^ 78) v.items) }
{
    let mut all = Vec::new(alloc);
    for i in 0..amounts.len() {
        all.push(whole(amounts[i], unit))?;
    }
    Ok(all)
}

/// The moves that are made, and how often over a unit.
pub(crate) fn listed(
    alloc: Global,
    moves: &[Move],
    amounts: &[u128],
    unit: u64,
) -> Result<Vec<Part>, AllocError>
    requires long { length amounts.now ≡ length moves.now }
    requires ascending { AreAscending moves.now }
    ensures ascending { IfOk result (λ v. PartsAscend v.items) }
    ensures parts { IfOk result (λ v. All IsPart v.items) }
{
    let all = all_whole(alloc, amounts, unit)?;
    parts_of(alloc, moves, &all)
}
