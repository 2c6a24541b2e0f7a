// The weights of columns.
ghost use Rattle.std.specs.Prelude.{◌≡◌, ◌*◌, ◌/◌, ◌<◌, ◌≤◌, ◌^◌, ◌++◌, ◌∷◌, [], unsigned_abs, length, true, false, IfOk, OnOk, MatchOption, All};
ghost use Rattle.simplex_tables.specs.Rows.{gcd};
ghost use Rattle.simplex_tables.specs.Choices.{right};
ghost use Rattle.simplex_tables.specs.Shapes.{IsShaped};
ghost use Rattle.simplex_rounds.specs.Limits.{is_narrow};
ghost use Rattle.simplex_rounds.specs.Weighted.{lowest, weights_of, multiple, denominator, numerator};

use crate::limits::is_narrow;
use simplex_tables::{Table, gcd, right};
use std::alloc::{AllocError, Global};

/// The weight of a column, by its number: a fraction in lowest terms.
#[derive(Clone, Copy)]
pub struct Weight {
    pub column: usize,
    pub top: u128,
    pub bottom: u128,
}

/// A fraction in lowest terms, as the weight of a column.
fn lowest(column: usize, top: u128, bottom: u128) -> Weight
    requires { 0 < bottom }
    ensures value { result ≡ lowest column top bottom }
    ensures positive { 0 < result.bottom }
{
    let divisor = gcd(top, bottom);
    Weight {
        column,
        top: top / divisor,
        bottom: bottom / divisor,
    }
}

/// Adds the weight that a row has, if one of so many columns owns it.
fn push_weight(
    weights: &mut Vec<Weight>,
    columns: usize,
    own: usize,
    row: &[i128],
) -> Result<(), AllocError>
    requires within { columns < length row.now }
    requires positive { All (λ w. 0 < w.bottom) weights.old.items }
    ensures value { OnOk result (weights.new.items ≡ weights.old.items ++ weights_of columns (own ∷ []) (row.now ∷ [])) }
    ensures positive { OnOk result (All (λ w. 0 < w.bottom) weights.new.items) }
{
    if own > 0 && own <= columns {
        if row[own] > 0 {
            weights.push(lowest(own - 1, right(row).unsigned_abs(), row[own].unsigned_abs()))?;
        }
    }
    Ok(())
}

/// The weights of the columns that own rows.
pub fn weights(
    alloc: Global,
    columns: usize,
    width: usize,
    table: &Table,
) -> Result<Vec<Weight>, AllocError>
    requires shape { IsShaped width table.now }
    requires fits { columns < width }
    ensures value { IfOk result (λ v. v.items ≡ weights_of columns table.now.owns table.now.rows) }
    ensures positive { IfOk result (λ v. All (λ w. 0 < w.bottom) v.items) }
{
    let owns = table.owns.as_slice();
    let rows = table.rows.as_slice();
    let mut weights = Vec::new(alloc);
    for i in 0..rows.len() {
        push_weight(&mut weights, columns, owns[i], rows[i].as_slice())?;
    }
    Ok(weights)
}

/// The least common multiple.
fn multiple(all: u128, bottom: u128) -> u128
    requires all { 0 < all }
    requires bottom { 0 < bottom }
    requires all_small { all ≤ 2 ^ 44 }
    requires bottom_small { bottom ≤ 2 ^ 44 }
    ensures value { result ≡ multiple all bottom }
    ensures positive { 0 < result }
{
    all / gcd(all, bottom) * bottom
}

/// The least common denominator of weights; none where it, times one more than the number of loop claims, passes 2^44.
pub fn denominator(weights: &[Weight], times: u64) -> Option<u128>
    requires times { 0 < times }
    requires positive { All (λ w. 0 < w.bottom) weights.now }
    ensures { MatchOption result (is_narrow times (denominator 1 weights.now) ≡ false) (λ m. (m ≡ denominator 1 weights.now) × (is_narrow times m ≡ true)) }
{
    if !is_narrow(1, times) {
        return None;
    }
    let mut all = 1;
    for i in 0..weights.len() {
        let bottom = weights[i].bottom;
        if !is_narrow(bottom, times) {
            return None;
        }
        all = multiple(all, bottom);
        if !is_narrow(all, times) {
            return None;
        }
    }
    Some(all)
}

/// A weight's numerator over a common denominator; none where it, times one more than the number of loop claims, passes
/// 2^44.
#[tactic(auto, using(crate::proofs::StepLemmas::quotient_product))]
pub fn numerator(all: u128, weight: Weight, times: u64) -> Option<u128>
    requires times { 0 < times }
    requires bottom { 0 < weight.bottom }
    requires whole { weight.bottom ≤ all }
    requires all { all ≤ 2 ^ 44 }
    ensures { MatchOption result (is_narrow times (numerator all weight) ≡ false) (λ n. (n ≡ numerator all weight) × (is_narrow times n ≡ true)) }
{
    if !is_narrow(weight.top, times) {
        return None;
    }
    let number = weight.top * (all / weight.bottom);
    if !is_narrow(number, times) {
        return None;
    }
    Some(number)
}
