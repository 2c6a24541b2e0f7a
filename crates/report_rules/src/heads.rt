// The lines `version`, `cycles`, `kind` and `end`.
ghost use Rattle.std.specs.Prelude.{◌≡◌, ◌<◌, ◌^◌, ◌∷◌, [], true, false, map, codes, IfOk, IfErr};
ghost use Rattle.std.specs.Fmt.{decimal};
ghost use Rattle.report_text.specs.Lines.{cycles_line, end_line};
ghost use Rattle.report_rules.specs.Rules.{IsLine, IsFlaw};
ghost use Rattle.report_rules.specs.WordTests.{are_none};
ghost use Rattle.report_rules.specs.Heads.{are_two, version_rule, cycles_rule, kind_rule, end_rule};
ghost use Rattle.report_lines.specs.LineShapes.{small};
ghost use Rattle.report_rules.specs.KindForms.{IsWide, IsSpent, IsNumbersFlaw, IsKindLine};
ghost use Rattle.report_rules.specs.declared.flaw.Flaw.TheVariants as flaws;

use crate::flaw::Flaw;
use crate::shapes::{CYCLES, SMALL};
use crate::words::is_word;
use code_flow_answer::Kind;
use report_lines::{spent_kind, wide_kind};
use report_words::{are_in_range, fit};

fn are_two(words: &[&[u8]]) -> bool
    ensures { result ≡ are_two (map (λ w. w.now) words.now) }
{
    match words {
        [] => false,
        [word, rest @ ..] => is_word(word, b"2") && rest.is_empty(),
    }
}

/// A line `version`: it says 2.
pub fn version(before: u8, words: &[&[u8]]) -> Result<(), Flaw>
    ensures ok { IfOk result (λ _. IsLine version_rule before (map (λ w. w.now) words.now) (codes "version" ∷ decimal 2 ∷ [])) }
    ensures err { IfErr result (IsFlaw version_rule before (map (λ w. w.now) words.now)) }
{
    if are_two(words) {
        Ok(())
    } else {
        Err(Flaw::Form)
    }
}

/// The number of a line `cycles`.
pub fn cycles(words: &[&[u8]]) -> Result<u64, Flaw>
    ensures ok { IfOk result (λ n. IsLine cycles_rule tt (map (λ w. w.now) words.now) (cycles_line n)) }
    ensures range { IfOk result (λ n. n < 2 ^ 63) }
    ensures err { IfErr result (IsFlaw cycles_rule tt (map (λ w. w.now) words.now)) }
{
    if !fit(&CYCLES, words) {
        return Err(Flaw::Form);
    }
    if !are_in_range(&CYCLES, words) {
        return Err(Flaw::Range);
    }
    Ok(report_lines::cycles(words))
}

// A kind without numbers.
fn plain(kind: Kind, rest: &[&[u8]]) -> Result<Kind, Flaw>
    ensures ok { IfOk result (λ k. (k ≡ kind) × (are_none (map (λ w. w.now) rest.now) ≡ true)) }
    ensures err { IfErr result (λ flaw. (flaw ≡ flaws.Form) × (are_none (map (λ w. w.now) rest.now) ≡ false)) }
{
    match rest {
        [] => Ok(kind),
        [_, ..] => Err(Flaw::Form),
    }
}

// A kind with the number of a pivot.
fn wide(rest: &[&[u8]]) -> Result<Kind, Flaw>
    ensures ok { IfOk result (IsWide (map (λ w. w.now) rest.now)) }
    ensures err { IfErr result (IsNumbersFlaw (small ∷ []) (map (λ w. w.now) rest.now)) }
{
    if !fit(&[SMALL], rest) {
        return Err(Flaw::Form);
    }
    if !are_in_range(&[SMALL], rest) {
        return Err(Flaw::Range);
    }
    Ok(wide_kind(rest[0]))
}

// A kind with numbers of columns and of pivots.
fn spent(rest: &[&[u8]]) -> Result<Kind, Flaw>
    ensures ok { IfOk result (IsSpent (map (λ w. w.now) rest.now)) }
    ensures err { IfErr result (IsNumbersFlaw (small ∷ small ∷ []) (map (λ w. w.now) rest.now)) }
{
    if !fit(&[SMALL, SMALL], rest) {
        return Err(Flaw::Form);
    }
    if !are_in_range(&[SMALL, SMALL], rest) {
        return Err(Flaw::Range);
    }
    Ok(spent_kind(rest[0], rest[1]))
}

// The kind of a first word and those behind it.
fn kind_of(word: &[u8], rest: &[&[u8]]) -> Result<Kind, Flaw>
    ensures ok { IfOk result (IsKindLine (word.now ∷ map (λ w. w.now) rest.now)) }
    ensures err { IfErr result (IsFlaw kind_rule false (word.now ∷ map (λ w. w.now) rest.now)) }
{
    if is_word(word, b"greatest") {
        return plain(Kind::Greatest, rest);
    }
    if is_word(word, b"empty") {
        return plain(Kind::Empty, rest);
    }
    if is_word(word, b"wide") {
        return wide(rest);
    }
    if is_word(word, b"spent") {
        return spent(rest);
    }
    Err(Flaw::Form)
}

/// The kind of a line `kind`.
pub fn kind(words: &[&[u8]]) -> Result<Kind, Flaw>
    ensures ok { IfOk result (IsKindLine (map (λ w. w.now) words.now)) }
    ensures err { IfErr result (IsFlaw kind_rule false (map (λ w. w.now) words.now)) }
{
    match words {
        [] => Err(Flaw::Form),
        [word, rest @ ..] => kind_of(word, rest),
    }
}

/// A line `end`, which has no more words.
pub fn end(words: &[&[u8]]) -> Result<(), Flaw>
    ensures ok { IfOk result (λ _. IsLine end_rule tt (map (λ w. w.now) words.now) end_line) }
    ensures err { IfErr result (IsFlaw end_rule tt (map (λ w. w.now) words.now)) }
{
    if words.is_empty() {
        Ok(())
    } else {
        Err(Flaw::Form)
    }
}
