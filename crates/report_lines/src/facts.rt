// Whether the words of a line `fact` have its form and range.
ghost use Rattle.std.specs.Prelude.{◌≡◌, ◌∷◌, ◌&&◌, true, false, map, nat_lt, MatchOption};
ghost use Rattle.report_words.specs.Numbers.{is_term};
ghost use Rattle.report_text.specs.Lines.{compare_word};
ghost use Rattle.report_lines.specs.Sums.{is_byte, address_in, is_compare, are_more_terms, are_terms, are_more_in_range, are_terms_in_range};

use crate::sums::{is_byte, is_term, is_term_in_range, term_address};
use wcc_base::Compare;

/// The sign between two sums, if the word is one.
pub fn compare(word: &[u8]) -> Option<Compare>
    ensures { MatchOption result (is_compare word.now ≡ false) (λ op. compare_word op ≡ word.now) }
{
    let [first, rest @ ..] = word else {
        return None;
    };
    if *first == b'=' {
        return equal(rest);
    }
    if !is_byte(rest, b'=') {
        return None;
    }
    if *first == b'<' {
        return Some(Compare::AtMost);
    }
    if *first == b'>' {
        return Some(Compare::AtLeast);
    }
    None
}

// The sign of which this stands behind the first byte, `=`.
fn equal(rest: &[u8]) -> Option<Compare>
    ensures { MatchOption result (is_compare (61 ∷ rest.now) ≡ false) (λ op. compare_word op ≡ 61 ∷ rest.now) }
{
    if rest.is_empty() {
        Some(Compare::Equal)
    } else {
        None
    }
}

// Whether a term of a greater address follows, behind a plus.
fn is_next(last: u32, sign: &[u8], word: &[u8]) -> bool
    ensures { result ≡ (is_byte 43 sign.now && (is_term word.now && nat_lt last (address_in word.now))) }
{
    if !is_byte(sign, b'+') {
        return false;
    }
    if !is_term(word) {
        return false;
    }
    last < term_address(word)
}

// Whether terms follow, each of a greater address and behind a plus.
fn are_more_terms(first: u32, words: &[&[u8]]) -> bool
    ensures { result ≡ are_more_terms first (map (λ w. w.now) words.now) }
{
    if words.len() % 2 == 1 {
        return false;
    }
    let mut last = first;
    'terms: for i in 0..words.len() / 2 {
        if !is_next(last, words[2 * i], words[2 * i + 1]) {
            return false;
        }
        last = term_address(words[2 * i + 1]);
    }
    true
}

/// Whether a first word and those behind it are terms with a plus between them, of ascending
/// addresses.
pub fn are_terms(first: &[u8], words: &[&[u8]]) -> bool
    ensures { result ≡ are_terms (first.now ∷ map (λ w. w.now) words.now) }
{
    if !is_term(first) {
        return false;
    }
    are_more_terms(term_address(first), words)
}

// Whether the numbers of terms that follow are in range.
fn are_more_in_range(first: u32, words: &[&[u8]]) -> bool
    requires { are_more_terms first (map (λ w. w.now) words.now) ≡ true }
    ensures { result ≡ are_more_in_range (map (λ w. w.now) words.now) }
{
    'terms: for i in 0..words.len() / 2 {
        if !is_term_in_range(words[2 * i + 1]) {
            return false;
        }
    }
    true
}

/// Whether the numbers of terms are in range.
pub fn are_terms_in_range(first: &[u8], words: &[&[u8]]) -> bool
    requires { are_terms (first.now ∷ map (λ w. w.now) words.now) ≡ true }
    ensures { result ≡ are_terms_in_range (first.now ∷ map (λ w. w.now) words.now) }
{
    if !is_term_in_range(first) {
        return false;
    }
    are_more_in_range(term_address(first), words)
}
