// The lines of a text, and the words of a line.
ghost use Rattle.std.specs.Prelude.{◌≡◌, ◌++◌, ◌∷◌, [], ◌≤◌, ◌<◌, length, map, take, true, MatchOption, OnOk, slice_index};
ghost use Rattle.report_words.specs.Splitting.{lacks, SplitsAt, words_of};

use wcc_base::Memory;

// How many bytes stand before the first one that is `stop`, or how many there are.
fn length_before(text: &[u8], stop: u8) -> usize
    ensures within { result ≤ length text.now }
    ensures before { lacks stop (take result text.now) ≡ true }
    ensures stops { result < length text.now → slice_index text.now result ≡ stop }
{
    for (i, byte) in text.iter().enumerate() {
        if *byte == stop {
            return i;
        }
    }
    text.len()
}

// What stands before the first byte that is `stop`, and what behind it.
fn split_at_byte(text: &[u8], stop: u8) -> Option<(&[u8], &[u8])>
    ensures { MatchOption result (lacks stop text.now ≡ true) (λ r. SplitsAt stop text.now r.0.now r.1.now) }
{
    let (front, back) = text.split_at(length_before(text, stop));
    match back {
        [] => None,
        [_, rest @ ..] => Some((front, rest)),
    }
}

/// The first line of a text without its end, and what stands behind that end; none where no line
/// ends.
pub fn split_line(text: &[u8]) -> Option<(&[u8], &[u8])>
    ensures { MatchOption result (lacks 10 text.now ≡ true) (λ r. SplitsAt 10 text.now r.0.now r.1.now) }
{
    split_at_byte(text, b'\n')
}

// Adds a word.
fn push_word<'a>(words: &mut Vec<&'a [u8]>, word: &'a [u8]) -> Result<(), Memory>
    ensures { OnOk result (map (λ w. w.now) words.new.items ≡ map (λ w. w.now) words.old.items ++ word.now ∷ []) }
{
    words.push(word)?;
    Ok(())
}

/// Adds the words of a line.
pub fn read_words<'a>(words: &mut Vec<&'a [u8]>, line: &'a [u8]) -> Result<(), Memory>
    ensures { OnOk result (map (λ w. w.now) words.new.items ≡ map (λ w. w.now) words.old.items ++ words_of line.now) }
{
    let mut rest = line;
    'words: while let Some((word, after)) = split_at_byte(rest, b' ') {
        push_word(words, word)?;
        rest = after;
    }
    push_word(words, rest)?;
    Ok(())
}
