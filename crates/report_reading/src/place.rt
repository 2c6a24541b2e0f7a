// Places in a text, and the line at a place.
ghost use Rattle.std.specs.Prelude.{◌≡◌, ◌++◌, ◌∷◌, [], map, false, IfOk, MatchOption, OnOk};
ghost use Rattle.report_reading.specs.Texts.{lines_of};
ghost use Rattle.report_reading.specs.Sections.{has_tag, later_words, starts};
ghost use Rattle.report_reading.specs.Reading.{at_of, IsNumbered, IsNext, fault_at};

use crate::fault::ReportFault;
use report_rules::{Flaw, is_word};
use report_words::{read_words, split_line};
use std::alloc::Global;
use wcc_base::Memory;

/// A place in a text, at which a line begins.
#[derive(Clone, Copy)]
pub struct Place<'a> {
    /// The number of the line, from 1.
    pub number: u32,
    /// What is left of the text.
    pub rest: &'a [u8],
}

/// A line: its words, and the place behind it.
#[derive(Drop)]
pub struct NextLine<'a> {
    words: Vec<&'a [u8]>,
    pub after: Place<'a>,
}

impl<'a> NextLine<'a> {
    /// The words behind the first one.
    pub fn words(&self) -> &[&'a [u8]]
        ensures { map (λ w. w.now) result.now ≡ later_words (map (λ w. w.now) self.now.words.items) }
    {
        match self.words.as_slice() {
            [] => self.words.as_slice(),
            [_, words @ ..] => words,
        }
    }
}

// As many words as most lines have.
const WORDS: usize = 4;

// Whether the first word is the tag.
fn has_tag(words: &[&[u8]], tag: &[u8]) -> bool
    ensures { result ≡ has_tag tag.now (map (λ w. w.now) words.now) }
{
    match words {
        [] => false,
        [word, ..] => is_word(word, tag),
    }
}

/// The line at a place, where its first word is the tag.
#[tactic(auto, using(crate::proofs::TextLemmas::unended, crate::proofs::TextLemmas::other_line, crate::proofs::TextLemmas::next_is))]
pub fn next_line<'a>(
    alloc: Global,
    at: Place<'a>,
    tag: &[u8],
) -> Result<Option<NextLine<'a>>, Memory>
    requires { IsNumbered (at_of at.number at.rest.now) }
    ensures { IfOk result (λ r. MatchOption r (starts tag.now (lines_of at.entry.rest.now) ≡ false)
        (λ line. IsNext tag.now (at_of at.entry.number at.entry.rest.now) (later_words (map (λ w. w.now) line.words.items)) (at_of line.after.number line.after.rest.now))) }
{
    let Some((text, rest)) = split_line(at.rest) else {
        return Ok(None);
    };
    let mut words = Vec::with_capacity(alloc, WORDS)?;
    read_words(&mut words, text)?;
    if !has_tag(words.as_slice(), tag) {
        return Ok(None);
    }
    let after = Place {
        number: at.number + 1,
        rest,
    };
    Ok(Some(NextLine { words, after }))
}

/// The fault of the line of that number with a flaw.
pub fn fault_at(number: u32, flaw: Flaw) -> ReportFault
    ensures { result ≡ fault_at number flaw }
{
    match flaw {
        Flaw::Form => ReportFault::Line { number },
        Flaw::Range => ReportFault::Number { line: number },
        Flaw::Memory => ReportFault::Memory,
    }
}

/// Adds a value to a list.
pub fn add<T: Drop>(list: &mut Vec<T>, value: T) -> Result<(), Memory>
    ensures { OnOk result (list.new.items ≡ list.old.items ++ value ∷ []) }
{
    list.push(value)?;
    Ok(())
}
