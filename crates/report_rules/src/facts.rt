// The lines `fact`.
ghost use Rattle.std.specs.Prelude.{◌≡◌, ◌^◌, ◌∷◌, ◌++◌, ◌&&◌, true, false, map, nat_lt, unsigned_abs, IfOk, IfErr, MatchOption, All};
ghost use Rattle.code_flow_system.specs.Certificates.{IsSmall};
ghost use Rattle.report_text.specs.Forms.{IsTerm, IsFact};
ghost use Rattle.report_text.specs.Lines.{sum_words, compare_word, fact_line};
ghost use Rattle.report_words.specs.Numbers.{is_signed, signed_of};
ghost use Rattle.report_rules.specs.declared.flaw.Flaw.TheVariants as flaws;
ghost use Rattle.report_rules.specs.Rules.{IsLineAnywhere, IsFlawAnywhere};
ghost use Rattle.report_rules.specs.FactRules.{is_zero, is_sum, is_sum_in_range, has_sign, fact_rule};
ghost use Rattle.report_rules.specs.FactForms.{AreSides};

use crate::flaw::Flaw;
use crate::words::is_word;
use code_flow_system::FactClaim;
use frac128::Sum;
use report_lines::{are_small, are_terms, are_terms_in_range, compare, integer};
use report_words::is_signed;
use std::alloc::Global;
use wcc_base::{Compare, Memory};

// The words on both sides of a sign.
#[derive(Clone, Copy)]
struct Sides<'a, 'b> {
    left: &'b [&'a [u8]],
    op: Compare,
    right: &'b [&'a [u8]],
}

// The sides of the first sign.
fn split_sides<'a, 'b>(words: &'b [&'a [u8]]) -> Option<Sides<'a, 'b>>
    ensures { MatchOption result (has_sign (map (λ w. w.now) words.now) ≡ false) (λ s. AreSides (map (λ w. w.now) words.now) (map (λ w. w.now) s.left.now) s.op (map (λ w. w.now) s.right.now)) }
{
    for i in 0..words.len() {
        if let Some(op) = compare(words[i]) {
            return Some(Sides {
                left: &words[..i],
                op,
                right: &words[i + 1..],
            });
        }
    }
    None
}

// Whether words are `0` alone.
fn is_zero(words: &[&[u8]]) -> bool
    ensures { result ≡ is_zero (map (λ w. w.now) words.now) }
{
    match words {
        [] => false,
        [word, rest @ ..] => is_word(word, b"0") && rest.is_empty(),
    }
}

// Whether words are a sum.
fn is_sum(words: &[&[u8]]) -> bool
    ensures { result ≡ is_sum (map (λ w. w.now) words.now) }
{
    if is_zero(words) {
        return true;
    }
    match words {
        [] => false,
        [first, rest @ ..] => are_terms(first, rest),
    }
}

// Whether the numbers of a sum are in range.
fn is_sum_in_range(words: &[&[u8]]) -> bool
    requires { is_sum (map (λ w. w.now) words.now) ≡ true }
    ensures { result ≡ is_sum_in_range (map (λ w. w.now) words.now) }
{
    if is_zero(words) {
        return true;
    }
    match words {
        [] => true,
        [first, rest @ ..] => are_terms_in_range(first, rest),
    }
}

// The sum of words.
#[tactic(auto, using(crate::proofs::FactLemmas::zero_words))]
fn sum_of(alloc: Global, words: &[&[u8]]) -> Result<Sum, Memory>
    requires form { is_sum (map (λ w. w.now) words.now) ≡ true }
    requires in_range { is_sum_in_range (map (λ w. w.now) words.now) ≡ true }
    ensures written { IfOk result (λ sum. sum_words sum ≡ map (λ w. w.now) words.now) }
    ensures terms { IfOk result (λ sum. All IsTerm sum) }
{
    if is_zero(words) {
        return Ok(Sum::new(alloc));
    }
    match words {
        [] => Ok(Sum::new(alloc)),
        [first, rest @ ..] => report_lines::sum(alloc, first, rest),
    }
}

// The claim of two sums.
fn sides_of(alloc: Global, sides: &Sides) -> Result<FactClaim, Flaw>
    requires left { is_sum (map (λ w. w.now) sides.now.left.now) ≡ true }
    requires right { is_sum (map (λ w. w.now) sides.now.right.now) ≡ true }
    requires left_in_range { is_sum_in_range (map (λ w. w.now) sides.now.left.now) ≡ true }
    requires right_in_range { is_sum_in_range (map (λ w. w.now) sides.now.right.now) ≡ true }
    ensures written { IfOk result (λ c. sum_words c.left ++ compare_word c.op ∷ sum_words c.right ≡ map (λ w. w.now) sides.now.left.now ++ compare_word sides.now.op ∷ map (λ w. w.now) sides.now.right.now) }
    ensures form { IfOk result IsFact }
    ensures memory { IfErr result (λ flaw. flaw ≡ flaws.Memory) }
{
    let left = sum_of(alloc, sides.left)?;
    let right = sum_of(alloc, sides.right)?;
    Ok(FactClaim {
        left,
        op: sides.op,
        right,
    })
}

// Whether a multiplier and two sums may stand behind `fact`.
fn is_form(by: &[u8], sides: &Sides) -> bool
    ensures { result ≡ (is_signed by.now && (is_sum (map (λ w. w.now) sides.now.left.now) && is_sum (map (λ w. w.now) sides.now.right.now))) }
{
    is_signed(by) && (is_sum(sides.left) && is_sum(sides.right))
}

// Whether their numbers are in range.
fn is_range(by: &[u8], sides: &Sides) -> bool
    requires by { is_signed by.now ≡ true }
    requires left { is_sum (map (λ w. w.now) sides.now.left.now) ≡ true }
    requires right { is_sum (map (λ w. w.now) sides.now.right.now) ≡ true }
    ensures { result ≡ (nat_lt (unsigned_abs (signed_of by.now)) (2 ^ 120) && (is_sum_in_range (map (λ w. w.now) sides.now.left.now) && is_sum_in_range (map (λ w. w.now) sides.now.right.now))) }
{
    are_small(&[by]) && (is_sum_in_range(sides.left) && is_sum_in_range(sides.right))
}

// The claim and the multiplier of the words behind `fact`.
#[tactic(auto, using(crate::proofs::FactLemmas::no_sign_flaw, crate::proofs::FactLemmas::form_flaw, crate::proofs::FactLemmas::range_flaw, crate::proofs::FactLemmas::memory_flaw, crate::proofs::FactLemmas::multiplier_small))]
fn fact_of(alloc: Global, by: &[u8], words: &[&[u8]]) -> Result<(FactClaim, i128), Flaw>
    ensures ok { IfOk result (λ r. IsLineAnywhere fact_rule (by.now ∷ map (λ w. w.now) words.now) (fact_line r.0 r.1)) }
    ensures form { IfOk result (λ r. IsFact r.0 × IsSmall r.1) }
    ensures err { IfErr result (IsFlawAnywhere fact_rule (by.now ∷ map (λ w. w.now) words.now)) }
{
    let Some(sides) = split_sides(words) else {
        return Err(Flaw::Form);
    };
    if !is_form(by, &sides) {
        return Err(Flaw::Form);
    }
    if !is_range(by, &sides) {
        return Err(Flaw::Range);
    }
    let claim = sides_of(alloc, &sides)?;
    Ok((claim, integer(by)))
}

/// The claim and the multiplier of a line `fact`.
#[tactic(auto, using(crate::proofs::FactLemmas::empty_flaw))]
pub fn fact(alloc: Global, words: &[&[u8]]) -> Result<(FactClaim, i128), Flaw>
    ensures ok { IfOk result (λ r. IsLineAnywhere fact_rule (map (λ w. w.now) words.now) (fact_line r.0 r.1)) }
    ensures form { IfOk result (λ r. IsFact r.0 × IsSmall r.1) }
    ensures err { IfErr result (IsFlawAnywhere fact_rule (map (λ w. w.now) words.now)) }
{
    match words {
        [] => Err(Flaw::Form),
        [by, sides @ ..] => fact_of(alloc, by, sides),
    }
}
