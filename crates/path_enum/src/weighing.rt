// The common denominator of the columns' weights.
ghost use Rattle.std.specs.Prelude.{◌≡◌, ◌<◌, ◌≤◌, ◌^◌, true, false, Contains, MatchOption, All};
ghost use Rattle.simplex_rounds.specs.declared.weighing.Weight.{Weight};
ghost use Rattle.simplex_rounds.specs.Limits.{is_narrow};
ghost use Rattle.simplex_rounds.specs.Weighted.{denominator, numerator};
ghost use Rattle.path_fact_kinds.specs.Causes.{HasWideWeights};
ghost use Rattle.path_enum.specs.Weighing.{IsCommonOf};

use simplex_rounds::{Weight, denominator, numerator};

/// Whether each weight's numerator over a common denominator keeps the limit.
fn are_narrow(all: u128, weights: &[Weight], times: u64) -> bool
    requires times { 0 < times }
    requires small { all ≤ 2 ^ 44 }
    requires positive { All (λ w. 0 < w.bottom) weights.now }
    requires whole { All (λ w. w.bottom ≤ all) weights.now }
    ensures yes { result ≡ true → All (λ w. is_narrow times (numerator all w) ≡ true) weights.now }
    ensures no { result ≡ false → (w : Weight) × Contains weights.now w × (is_narrow times (numerator all w) ≡ false) }
{
    for i in 0..weights.len() {
        if numerator(all, weights[i], times).is_none() {
            return false;
        }
    }
    true
}

/// The least common denominator of weights; none where it, or a weight's numerator over it, passes the limit.
pub(crate) fn common(weights: &[Weight], times: u64) -> Option<u128>
    requires times { 0 < times }
    requires positive { All (λ w. 0 < w.bottom) weights.now }
    ensures { MatchOption result (HasWideWeights times (denominator 1 weights.now) weights.now) (IsCommonOf times weights.now) }
{
    let all = denominator(weights, times)?;
    if !are_narrow(all, weights, times) {
        return None;
    }
    Some(all)
}
