// The lines `copy` and `column`.
ghost use Rattle.std.specs.Prelude.{◌≡◌, ◌∷◌, true, map, IfOk, IfErr};
ghost use Rattle.report_words.specs.Words.{is_name};
ghost use Rattle.report_lines.specs.LineLists.{are_addresses, are_integers, are_small};
ghost use Rattle.report_text.specs.Forms.{IsCopyLine, IsColumn};
ghost use Rattle.report_text.specs.Lines.{copy_line, column_line};
ghost use Rattle.report_rules.specs.Rules.{IsLine, IsFlaw};
ghost use Rattle.report_rules.specs.WordTests.{places_ascend};
ghost use Rattle.report_rules.specs.Heads.{copy_rule, column_rule};

use crate::flaw::Flaw;
use crate::words::places_ascend;
use code_flow_answer::Column;
use report_lines::{are_addresses, are_integers, are_small};
use report_text::CopyLine;
use report_words::{Shape, are_in_range, is_name, is_signed};
use std::alloc::Global;

// Whether a name and places may stand behind `copy`.
fn is_copy(name: &[u8], places: &[&[u8]]) -> bool
    ensures { result ≡ copy_rule.stands tt (name.now ∷ map (λ w. w.now) places.now) }
{
    if !is_name(name) {
        return false;
    }
    if !are_addresses(places) {
        return false;
    }
    places_ascend(places)
}

#[tactic(auto, using(crate::proofs::ListLemmas::copy_form))]
fn copy_of(alloc: Global, name: &[u8], places: &[&[u8]]) -> Result<CopyLine, Flaw>
    ensures ok { IfOk result (λ c. IsLine copy_rule tt (name.now ∷ map (λ w. w.now) places.now) (copy_line c)) }
    ensures form { IfOk result IsCopyLine }
    ensures err { IfErr result (IsFlaw copy_rule tt (name.now ∷ map (λ w. w.now) places.now)) }
{
    if !is_copy(name, places) {
        return Err(Flaw::Form);
    }
    Ok(report_lines::copy(alloc, name, places)?)
}

/// The name and the places of a line `copy`.
pub fn copy(alloc: Global, words: &[&[u8]]) -> Result<CopyLine, Flaw>
    ensures ok { IfOk result (λ c. IsLine copy_rule tt (map (λ w. w.now) words.now) (copy_line c)) }
    ensures form { IfOk result IsCopyLine }
    ensures err { IfErr result (IsFlaw copy_rule tt (map (λ w. w.now) words.now)) }
{
    match words {
        [] => Err(Flaw::Form),
        [name, places @ ..] => copy_of(alloc, name, places),
    }
}

// Whether a value and totals, one for each fact, may stand behind `column`.
fn is_column(facts: usize, value: &[u8], totals: &[&[u8]]) -> bool
    ensures { result ≡ column_rule.stands facts (value.now ∷ map (λ w. w.now) totals.now) }
{
    if totals.len() != facts {
        return false;
    }
    is_signed(value) && are_integers(totals)
}

fn is_column_small(value: &[u8], totals: &[&[u8]]) -> bool
    requires { are_integers (value.now ∷ map (λ w. w.now) totals.now) ≡ true }
    ensures { result ≡ are_small (value.now ∷ map (λ w. w.now) totals.now) }
{
    are_in_range(&[Shape::Signed], &[value]) && are_small(totals)
}

#[tactic(auto, using(crate::proofs::ListLemmas::column_form))]
fn column_of(alloc: Global, facts: usize, value: &[u8], totals: &[&[u8]]) -> Result<Column, Flaw>
    ensures ok { IfOk result (λ c. IsLine column_rule facts (value.now ∷ map (λ w. w.now) totals.now) (column_line c)) }
    ensures form { IfOk result (IsColumn facts) }
    ensures err { IfErr result (IsFlaw column_rule facts (value.now ∷ map (λ w. w.now) totals.now)) }
{
    if !is_column(facts, value, totals) {
        return Err(Flaw::Form);
    }
    if !is_column_small(value, totals) {
        return Err(Flaw::Range);
    }
    Ok(report_lines::column(alloc, value, totals)?)
}

/// The value and the totals of a line `column`, where there are so many facts.
pub fn column(alloc: Global, facts: usize, words: &[&[u8]]) -> Result<Column, Flaw>
    ensures ok { IfOk result (λ c. IsLine column_rule facts (map (λ w. w.now) words.now) (column_line c)) }
    ensures form { IfOk result (IsColumn facts) }
    ensures err { IfErr result (IsFlaw column_rule facts (map (λ w. w.now) words.now)) }
{
    match words {
        [] => Err(Flaw::Form),
        [value, totals @ ..] => column_of(alloc, facts, value, totals),
    }
}
