// The lines `scale`, `potential`, `unit`, `flow` and `share`.
ghost use Rattle.std.specs.Prelude.{◌≡◌, ◌<◌, ◌≤◌, ◌^◌, map, IfOk, IfErr};
ghost use Rattle.code_flow_system.specs.Certificates.{IsSmall, IsPart};
ghost use Rattle.report_words.specs.Numbers.{number_of};
ghost use Rattle.report_text.specs.Forms.{IsShare};
ghost use Rattle.report_text.specs.Lines.{scale_line, potential_line, unit_line, flow_line, share_line};
ghost use Rattle.report_rules.specs.Rules.{IsLine, IsFlaw};
ghost use Rattle.report_rules.specs.WordTests.{word_at, place_at};
ghost use Rattle.report_rules.specs.CertRules.{scale_rule, potential_rule, unit_rule, flow_stands, flow_rule, share_stands, share_rule, IsUnit};

use crate::flaw::Flaw;
use crate::shapes::{FLOW, POTENTIAL, SCALE, SHARE, unit_shapes};
use crate::words::{numeral, place};
use code_flow_system::Part;
use report_text::Share;
use report_words::{are_in_range, fit};
use std::alloc::Global;

/// The number of a line `scale`.
#[tactic(auto, using(crate::proofs::ValueLemmas::scale_range))]
pub fn scale(words: &[&[u8]]) -> Result<u64, Flaw>
    ensures ok { IfOk result (λ n. IsLine scale_rule tt (map (λ w. w.now) words.now) (scale_line n)) }
    ensures range { IfOk result (λ n. (0 < n) × (n ≤ 2 ^ 48)) }
    ensures err { IfErr result (IsFlaw scale_rule tt (map (λ w. w.now) words.now)) }
{
    if !fit(&SCALE, words) {
        return Err(Flaw::Form);
    }
    if !are_in_range(&SCALE, words) {
        return Err(Flaw::Range);
    }
    Ok(report_lines::scale(words))
}

#[tactic(auto, using(crate::proofs::PlaceLemmas::potential_place))]
fn potential_stands(least: u64, words: &[&[u8]]) -> bool
    ensures { result ≡ potential_rule.stands least (map (λ w. w.now) words.now) }
{
    if !fit(&POTENTIAL, words) {
        return false;
    }
    least <= u64::from(place(words, 0))
}

/// The potential of a line `potential`, of that address at least.
#[tactic(auto, using(crate::proofs::ValueLemmas::potential_at, crate::proofs::ValueLemmas::potential_small))]
pub fn potential(least: u64, words: &[&[u8]]) -> Result<(u32, i128), Flaw>
    ensures ok { IfOk result (λ p. IsLine potential_rule least (map (λ w. w.now) words.now) (potential_line p)) }
    ensures at { IfOk result (λ p. p.0 ≡ place_at 0 (map (λ w. w.now) words.now)) }
    ensures small { IfOk result (λ p. IsSmall p.1) }
    ensures err { IfErr result (IsFlaw potential_rule least (map (λ w. w.now) words.now)) }
{
    if !potential_stands(least, words) {
        return Err(Flaw::Form);
    }
    if !are_in_range(&POTENTIAL, words) {
        return Err(Flaw::Range);
    }
    Ok(report_lines::potential(words))
}

/// The number of a line `unit`.
#[tactic(auto, using(crate::proofs::ValueLemmas::unit_range))]
pub fn unit(greatest: bool, words: &[&[u8]]) -> Result<u64, Flaw>
    ensures ok { IfOk result (λ n. IsLine unit_rule greatest (map (λ w. w.now) words.now) (unit_line n)) }
    ensures range { IfOk result (IsUnit greatest) }
    ensures err { IfErr result (IsFlaw unit_rule greatest (map (λ w. w.now) words.now)) }
{
    let shapes = unit_shapes(greatest);
    if !fit(&shapes, words) {
        return Err(Flaw::Form);
    }
    if !are_in_range(&shapes, words) {
        return Err(Flaw::Range);
    }
    Ok(report_lines::unit(greatest, words))
}

/// The least move that a line `flow` may have: an address, and the least number of its moves.
#[derive(Clone, Copy)]
pub struct LeastMove {
    pub at: u32,
    pub number: u16,
}

#[tactic(auto, using(crate::proofs::PlaceLemmas::flow_place, crate::proofs::PlaceLemmas::flow_number))]
fn flow_stands(least: LeastMove, words: &[&[u8]]) -> bool
    ensures { result ≡ flow_stands (record { at = least.at; number = least.number }) (map (λ w. w.now) words.now) }
{
    if !fit(&FLOW, words) {
        return false;
    }
    let at = place(words, 0);
    let number = numeral(words, 1);
    least.at < at || (least.at == at && u128::from(least.number) <= number)
}

/// The listed move of a line `flow`, of that address and number at least.
#[tactic(auto, using(crate::proofs::ValueLemmas::flow_at, crate::proofs::ValueLemmas::flow_part))]
pub fn flow(least: LeastMove, words: &[&[u8]]) -> Result<Part, Flaw>
    ensures ok { IfOk result (λ p. IsLine flow_rule (record { at = least.at; number = least.number }) (map (λ w. w.now) words.now) (flow_line p)) }
    ensures at { IfOk result (λ p. (p.at ≡ place_at 0 (map (λ w. w.now) words.now)) × (p.number ≡ number_of (word_at 1 (map (λ w. w.now) words.now)))) }
    ensures part { IfOk result IsPart }
    ensures err { IfErr result (IsFlaw flow_rule (record { at = least.at; number = least.number }) (map (λ w. w.now) words.now)) }
{
    if !flow_stands(least, words) {
        return Err(Flaw::Form);
    }
    if !are_in_range(&FLOW, words) {
        return Err(Flaw::Range);
    }
    Ok(report_lines::flow(words))
}

#[tactic(auto, using(crate::proofs::PlaceLemmas::share_first, crate::proofs::PlaceLemmas::share_end))]
fn share_stands(least: u32, words: &[&[u8]]) -> bool
    ensures { result ≡ share_stands least (map (λ w. w.now) words.now) }
{
    if !fit(&SHARE, words) {
        return false;
    }
    let first = place(words, 1);
    first < place(words, 2) && least <= first
}

/// The share of a line `share`, of that first address at least.
#[tactic(auto, using(crate::proofs::ValueLemmas::share_at, crate::proofs::ValueLemmas::share_form))]
pub fn share(alloc: Global, least: u32, words: &[&[u8]]) -> Result<Share, Flaw>
    ensures ok { IfOk result (λ s. IsLine share_rule least (map (λ w. w.now) words.now) (share_line s)) }
    ensures at { IfOk result (λ s. (s.first ≡ place_at 1 (map (λ w. w.now) words.now)) × (s.end ≡ place_at 2 (map (λ w. w.now) words.now))) }
    ensures form { IfOk result IsShare }
    ensures err { IfErr result (IsFlaw share_rule least (map (λ w. w.now) words.now)) }
{
    if !share_stands(least, words) {
        return Err(Flaw::Form);
    }
    if !are_in_range(&SHARE, words) {
        return Err(Flaw::Range);
    }
    Ok(report_lines::share(alloc, words)?)
}
