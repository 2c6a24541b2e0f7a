// Tests of words that several rules share.
ghost use Rattle.std.specs.Prelude.{◌≡◌, ◌^◌, true, map, min};
ghost use Rattle.report_words.specs.Numbers.{is_address, is_number, number_of};
ghost use Rattle.report_lines.specs.LineLists.{are_addresses};
ghost use Rattle.report_rules.specs.WordTests.{same_word, word_at, place_at, places_ascend};

use report_words::{address, number};

/// Whether a word is the other.
#[tactic(auto, using(crate::proofs::WordTestLemmas::same_word_same, crate::proofs::WordTestLemmas::same_word_other))]
pub fn is_word(word: &[u8], other: &[u8]) -> bool
    ensures { result ≡ same_word word.now other.now }
{
    word == other
}

/// The address that the word at a place says.
pub fn place(words: &[&[u8]], index: usize) -> u32
    requires { is_address (word_at index (map (λ w. w.now) words.now)) ≡ true }
    ensures { result ≡ place_at index (map (λ w. w.now) words.now) }
{
    address(words[index])
}

/// Whether addresses ascend strictly.
pub fn places_ascend(words: &[&[u8]]) -> bool
    requires { are_addresses (map (λ w. w.now) words.now) ≡ true }
    ensures { result ≡ places_ascend 0 (map (λ w. w.now) words.now) }
{
    let mut least: u64 = 0;
    for word in words {
        let at = u64::from(address(word));
        if at < least {
            return false;
        }
        least = at + 1;
    }
    true
}

/// The number that the word at a place says, or 2^120 where that is less.
pub fn numeral(words: &[&[u8]], index: usize) -> u128
    requires { is_number (word_at index (map (λ w. w.now) words.now)) ≡ true }
    ensures { result ≡ min (number_of (word_at index (map (λ w. w.now) words.now))) (2 ^ 120) }
{
    number(words[index])
}
