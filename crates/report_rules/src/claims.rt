// The lines `exit`, `never`, `region` and `loop`.
ghost use Rattle.std.specs.Prelude.{◌≡◌, map, IfOk, IfErr};
ghost use Rattle.code_flow_system.specs.Certificates.{IsSmall};
ghost use Rattle.report_text.specs.Forms.{NamesOne};
ghost use Rattle.report_text.specs.Lines.{exit_line, never_line, region_line, loop_line};
ghost use Rattle.report_rules.specs.Rules.{IsLine, IsFlaw};
ghost use Rattle.report_rules.specs.WordTests.{place_at};
ghost use Rattle.report_rules.specs.ClaimRules.{exit_rule, never_rule, region_stands, region_rule, loop_rule};

use crate::flaw::Flaw;
use crate::shapes::{EXIT, LOOP, NEVER, REGION};
use crate::words::place;
use code_flow_system::{LoopClaim, Never, Within};
use report_words::{are_in_range, fit};

#[tactic(auto, using(crate::proofs::PlaceLemmas::exit_place))]
fn exit_stands(least: u64, words: &[&[u8]]) -> bool
    ensures { result ≡ exit_rule.stands least (map (λ w. w.now) words.now) }
{
    if !fit(&EXIT, words) {
        return false;
    }
    least <= u64::from(place(words, 0))
}

/// The address of a line `exit`, of that one at least.
#[tactic(auto, using(crate::proofs::ValueLemmas::exit_at))]
pub fn exit(least: u64, words: &[&[u8]]) -> Result<u32, Flaw>
    ensures ok { IfOk result (λ a. IsLine exit_rule least (map (λ w. w.now) words.now) (exit_line a)) }
    ensures at { IfOk result (λ a. a ≡ place_at 0 (map (λ w. w.now) words.now)) }
    ensures err { IfErr result (IsFlaw exit_rule least (map (λ w. w.now) words.now)) }
{
    if !exit_stands(least, words) {
        return Err(Flaw::Form);
    }
    Ok(report_lines::exit(words))
}

#[tactic(auto, using(crate::proofs::PlaceLemmas::never_place))]
fn never_stands(least: u64, words: &[&[u8]]) -> bool
    ensures { result ≡ never_rule.stands least (map (λ w. w.now) words.now) }
{
    if !fit(&NEVER, words) {
        return false;
    }
    least <= u64::from(place(words, 2))
}

/// The claim and the multiplier of a line `never`, of that address at least.
#[tactic(auto, using(crate::proofs::ValueLemmas::never_at, crate::proofs::ValueLemmas::never_small))]
pub fn never(least: u64, words: &[&[u8]]) -> Result<(Never, i128), Flaw>
    ensures ok { IfOk result (λ r. IsLine never_rule least (map (λ w. w.now) words.now) (never_line r.0 r.1)) }
    ensures at { IfOk result (λ r. r.0.at ≡ place_at 2 (map (λ w. w.now) words.now)) }
    ensures small { IfOk result (λ r. IsSmall r.1) }
    ensures err { IfErr result (IsFlaw never_rule least (map (λ w. w.now) words.now)) }
{
    if !never_stands(least, words) {
        return Err(Flaw::Form);
    }
    if !are_in_range(&NEVER, words) {
        return Err(Flaw::Range);
    }
    Ok(report_lines::never(words))
}

/// How far lines `region` reach so far.
#[derive(Clone, Copy)]
pub struct Reached {
    /// The least first address that may follow.
    pub least: u64,
    /// The greatest end of those that have an address.
    pub end: u32,
}

#[tactic(auto, using(crate::proofs::PlaceLemmas::region_first, crate::proofs::PlaceLemmas::region_end))]
fn region_stands(reached: Reached, words: &[&[u8]]) -> bool
    ensures { result ≡ region_stands (record { least = reached.least; end = reached.end }) (map (λ w. w.now) words.now) }
{
    if !fit(&REGION, words) {
        return false;
    }
    let first = place(words, 0);
    let end = place(words, 1);
    reached.least <= u64::from(first) && (end <= first || reached.end <= first)
}

/// The claim of a line `region`, behind lines that reach so far.
#[tactic(auto, using(crate::proofs::ValueLemmas::region_at, crate::proofs::ValueLemmas::region_named))]
pub fn region(reached: Reached, words: &[&[u8]]) -> Result<Within, Flaw>
    ensures ok { IfOk result (λ w. IsLine region_rule (record { least = reached.least; end = reached.end }) (map (λ w. w.now) words.now) (region_line w)) }
    ensures at { IfOk result (λ w. (w.first ≡ place_at 0 (map (λ w. w.now) words.now)) × (w.end ≡ place_at 1 (map (λ w. w.now) words.now))) }
    ensures named { IfOk result NamesOne }
    ensures err { IfErr result (IsFlaw region_rule (record { least = reached.least; end = reached.end }) (map (λ w. w.now) words.now)) }
{
    if !region_stands(reached, words) {
        return Err(Flaw::Form);
    }
    Ok(report_lines::region(words))
}

#[tactic(auto, using(crate::proofs::PlaceLemmas::loop_place))]
fn loop_stands(least: u64, words: &[&[u8]]) -> bool
    ensures { result ≡ loop_rule.stands least (map (λ w. w.now) words.now) }
{
    if !fit(&LOOP, words) {
        return false;
    }
    least <= u64::from(place(words, 4))
}

/// The claim and the multipliers of a line `loop`, of that header at least.
#[tactic(auto, using(crate::proofs::ValueLemmas::loop_at, crate::proofs::ValueLemmas::loop_small))]
pub fn loop_claim(least: u64, words: &[&[u8]]) -> Result<(LoopClaim, (i128, i128)), Flaw>
    ensures ok { IfOk result (λ r. IsLine loop_rule least (map (λ w. w.now) words.now) (loop_line r.0 r.1)) }
    ensures at { IfOk result (λ r. r.0.header ≡ place_at 4 (map (λ w. w.now) words.now)) }
    ensures small { IfOk result (λ r. IsSmall r.1.0 × IsSmall r.1.1) }
    ensures err { IfErr result (IsFlaw loop_rule least (map (λ w. w.now) words.now)) }
{
    if !loop_stands(least, words) {
        return Err(Flaw::Form);
    }
    if !are_in_range(&LOOP, words) {
        return Err(Flaw::Range);
    }
    Ok(report_lines::loop_claim(words))
}
