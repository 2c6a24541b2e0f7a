// The runs of a text: words, and signs between them.
ghost use Rattle.std.specs.Prelude.{◌≡◌, ◌<◌, ◌≤◌, [], ◌∷◌, drop, take, false, length, slice_index, IfSome, IfNone};
ghost use Rattle.facts_definitions.specs.PragmaTexts.{runs, same_class};
ghost use Rattle.c_tree.specs.Bytes.{is_name_byte};
ghost use Rattle.c_tree.specs.Pragmas.{is_gap};

use super::bytes::{is_gap, is_name_byte};

/// A run, and what stands behind it.
#[derive(Clone, Copy)]
pub struct Run<'a> {
    pub bytes: &'a [u8],
    pub rest: &'a [u8],
}

/// Where the blanks end that a text begins with.
fn behind_blanks(text: &[u8]) -> usize
    ensures within { result ≤ length text.now }
    ensures same { runs text.now ≡ runs (drop result text.now) }
    ensures stop { result < length text.now → is_gap (slice_index text.now result) ≡ false }
{
    for i in 0..text.len() {
        if !is_gap(text[i]) {
            return i;
        }
    }
    text.len()
}

/// Whether a byte is of this class.
fn same_class(named: bool, b: u8) -> bool
    ensures { result ≡ same_class named (is_name_byte b) }
{
    if named {
        is_name_byte(b)
    } else {
        !is_name_byte(b)
    }
}

/// The length of the run that a text begins with.
fn run_length(text: &[u8]) -> usize
    requires some { 0 < length text.now }
    requires begun { is_gap (slice_index text.now 0) ≡ false }
    ensures within { result ≤ length text.now }
    ensures some { 0 < result }
    ensures cut { runs text.now ≡ take result text.now ∷ runs (drop result text.now) }
{
    let named = is_name_byte(text[0]);
    for at in 1..text.len() {
        if is_gap(text[at]) {
            return at;
        }
        if !same_class(named, text[at]) {
            return at;
        }
    }
    text.len()
}

/// The first run of a text.
pub fn next_run(text: &[u8]) -> Option<Run<'_>>
    ensures some { IfSome result (λ run. runs text.now ≡ run.bytes.now ∷ runs run.rest.now) }
    ensures shorter { IfSome result (λ run. length run.rest.now < length text.now) }
    ensures none { IfNone result (runs text.now ≡ []) }
{
    let start = behind_blanks(text);
    let begun = &text[start..];
    if begun.is_empty() {
        return None;
    }
    let size = run_length(begun);
    Some(Run {
        bytes: &begun[..size],
        rest: &begun[size..],
    })
}
