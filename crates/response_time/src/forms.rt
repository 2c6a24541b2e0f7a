// What a line says.
ghost use Rattle.std.specs.Prelude.{◌≡◌, ◌∷◌, ◌<◌, [], true, length, map, IfOk, IfErr};
ghost use Rattle.report_words.specs.Numbers.{is_number};
ghost use Rattle.response_time.specs.Entries.{are_visible, is_file, names_of};
ghost use Rattle.response_time.specs.Forms.{has_form, is_period, Says, IsLineFault};

use crate::known::{is_known, next_number};
use crate::{Entry, ListFault};
use report_words::{is_name, is_number, number};
use std::alloc::Global;
use wcc_base::{Memory, Text};

const MOST_PERIOD: u128 = 1_000_000_000_000;

fn are_visible(bytes: &[u8]) -> bool
    ensures { result ≡ are_visible bytes.now }
{
    for byte in bytes {
        if !(b'!' <= *byte && *byte <= b'~') {
            return false;
        }
    }
    true
}

fn is_file(word: &[u8]) -> bool
    ensures { result ≡ is_file word.now }
{
    match word {
        [] => false,
        [_, ..] => are_visible(word),
    }
}

// The words of a line of five.
#[derive(Clone, Copy)]
struct Five<'a> {
    tag: &'a [u8],
    name: &'a [u8],
    period: &'a [u8],
    image: &'a [u8],
    report: &'a [u8],
}

fn parted<'a>(words: &[&'a [u8]]) -> Five<'a>
    requires { length words.now ≡ 5 }
    ensures { map (λ w. w.now) words.now ≡ result.tag.now ∷ result.name.now ∷ result.period.now ∷ result.image.now ∷ result.report.now ∷ [] }
{
    Five {
        tag: words[0],
        name: words[1],
        period: words[2],
        image: words[3],
        report: words[4],
    }
}

// Whether five words have the form of a task's line behind those that are known.
fn has_form(known: &[Entry], line: Five) -> bool
    ensures { result ≡ has_form (names_of known.now) (line.entry.tag.now ∷ line.entry.name.now ∷ line.entry.period.now ∷ line.entry.image.now ∷ line.entry.report.now ∷ []) }
{
    if line.tag != b"task".as_slice() {
        return false;
    }
    if !is_name(line.name) {
        return false;
    }
    if is_known(known, line.name) {
        return false;
    }
    if !is_number(line.period) {
        return false;
    }
    is_file(line.image) && is_file(line.report)
}

#[tactic(auto, using(crate::proofs::FormLemmas::digits))]
fn is_period(word: &[u8]) -> bool
    requires { is_number word.now ≡ true }
    ensures { result ≡ is_period word.now }
{
    let period = number(word);
    1 <= period && period <= MOST_PERIOD
}

fn text(alloc: Global, word: &[u8]) -> Result<Text, Memory>
    ensures { IfOk result (λ t. t ≡ word.now) }
{
    Ok(Text::new(Vec::from_slice(alloc, word)?))
}

// The task that five words say.
fn said(alloc: Global, known: &[Entry], line: Five) -> Result<Entry, Memory>
    requires form { has_form (names_of known.now) (line.tag.now ∷ line.name.now ∷ line.period.now ∷ line.image.now ∷ line.report.now ∷ []) ≡ true }
    requires period { is_period line.period.now ≡ true }
    ensures { IfOk result (λ e. Says (names_of known.now) (line.entry.tag.now ∷ line.entry.name.now ∷ line.entry.period.now ∷ line.entry.image.now ∷ line.entry.report.now ∷ []) e) }
{
    let name = text(alloc, line.name)?;
    let image = text(alloc, line.image)?;
    let report = text(alloc, line.report)?;
    Ok(Entry {
        name,
        period: number(line.period) as u64,
        image,
        report,
    })
}

/// The task that a line's words say, behind those that are known.
pub fn entry_of(alloc: Global, known: &[Entry], words: &[&[u8]]) -> Result<Entry, ListFault>
    requires { length known.now < 64 }
    ensures ok { IfOk result (λ e. Says (names_of known.now) (map (λ w. w.now) words.now) e) }
    ensures err { IfErr result (λ fault. IsLineFault (names_of known.now) (map (λ w. w.now) words.now) fault) }
{
    let number = next_number(known);
    if words.len() != 5 {
        return Err(ListFault::Line { number });
    }
    let line = parted(words);
    if !has_form(known, line) {
        return Err(ListFault::Line { number });
    }
    if !is_period(line.period) {
        return Err(ListFault::Number { line: number });
    }
    match said(alloc, known, line) {
        Ok(entry) => Ok(entry),
        Err(_) => Err(ListFault::Memory),
    }
}
