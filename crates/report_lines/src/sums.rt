// The sums of a line `fact`.
ghost use Rattle.std.specs.Prelude.{◌≡◌, ◌≢◌, ◌++◌, ◌∷◌, [], ◌<◌, ◌≤◌, ◌-◌, ◌^◌, ℕ, pos, true, min, drop, length, map, OnOk, IfOk, All};
ghost use Rattle.frac128.specs.Sum.{address_at};
ghost use Rattle.report_words.specs.Numbers.{number_of, is_starred, is_term, term_number};
ghost use Rattle.report_text.specs.Forms.{IsTerm};
ghost use Rattle.report_text.specs.Lines.{sum_words};
ghost use Rattle.report_lines.specs.Sums.{is_byte, address_in, term_in, is_term_in_range, are_terms, are_terms_in_range};

use frac128::{Sum, SumFault};
use report_words::{address, is_address, is_number, number};
use std::alloc::Global;
use wcc_base::Memory;

/// Whether a word is this byte.
pub fn is_byte(word: &[u8], byte: u8) -> bool
    ensures { result ≡ is_byte byte word.now }
{
    match word {
        [] => false,
        [first, rest @ ..] => *first == byte && rest.is_empty(),
    }
}

// The number of a term, and what stands behind it: a star and the address.
fn split_term(word: &[u8]) -> (&[u8], &[u8])
    requires { 9 ≤ length word.now }
    ensures number { result.0.now ≡ term_number word.now }
    ensures rest { result.1.now ≡ drop (length word.now - 9) word.now }
{
    word.split_at(word.len() - 9)
}

fn is_starred(word: &[u8]) -> bool
    ensures { result ≡ is_starred word.now }
{
    match word {
        [] => false,
        [first, rest @ ..] => *first == b'*' && is_address(rest),
    }
}

/// Whether a word is a term: a number, a star and an address.
pub fn is_term(word: &[u8]) -> bool
    ensures { result ≡ is_term word.now }
{
    if word.len() < 10 {
        return false;
    }
    let (number, rest) = split_term(word);
    is_number(number) && is_starred(rest)
}

/// The address of a term.
pub fn term_address(word: &[u8]) -> u32
    requires { is_term word.now ≡ true }
    ensures { result ≡ address_in word.now }
{
    let (_, at) = word.split_at(word.len() - 8);
    address(at)
}

/// The number of a term, or 2^120 where that is less.
pub fn term_number(word: &[u8]) -> u128
    requires { is_term word.now ≡ true }
    ensures { result ≡ min (number_of (term_number word.now)) (2 ^ 120) }
{
    let (digits, _) = split_term(word);
    number(digits)
}

/// Whether the number of a term is in range.
pub fn is_term_in_range(word: &[u8]) -> bool
    requires { is_term word.now ≡ true }
    ensures { result ≡ is_term_in_range word.now }
{
    let number = term_number(word);
    1 <= number && number < 1 << 32
}

// Adds a term behind those of smaller addresses.
fn add_term(sum: &mut Sum, word: &[u8]) -> Result<(), Memory>
    requires form { is_term word.now ≡ true }
    requires in_range { is_term_in_range word.now ≡ true }
    requires behind { (i : ℕ) → i < length sum.old → address_at sum.old i < address_in word.now }
    ensures { OnOk result (sum.new ≡ sum.old ++ term_in word.now ∷ []) }
{
    let at = term_address(word);
    let number = term_number(word) as i64;
    match add_behind(sum, at, number) {
        Ok(()) => Ok(()),
        Err(_) => Err(Memory),
    }
}

// Adds a term behind those of smaller addresses.
#[tactic(auto, using(crate::proofs::SumLemmas::added))]
fn add_behind(sum: &mut Sum, at: u32, number: i64) -> Result<(), SumFault>
    requires some { number ≢ pos 0 }
    requires behind { (i : ℕ) → i < length sum.old → address_at sum.old i < at }
    ensures { OnOk result (sum.new ≡ sum.old ++ (at, number) ∷ []) }
{
    let _before = sum.terms();
    match sum.add_term(at, number) {
        Ok(()) => {
            let _after = sum.terms();
            Ok(())
        }
        Err(fault) => Err(fault),
    }
}

/// The sum of a first term and of the words behind it.
pub fn sum(alloc: Global, first: &[u8], words: &[&[u8]]) -> Result<Sum, Memory>
    requires form { are_terms (first.now ∷ map (λ w. w.now) words.now) ≡ true }
    requires in_range { are_terms_in_range (first.now ∷ map (λ w. w.now) words.now) ≡ true }
    ensures written { IfOk result (λ sum. sum_words sum ≡ first.now ∷ map (λ w. w.now) words.now) }
    ensures terms { IfOk result (λ sum. All IsTerm sum) }
{
    let mut sum = Sum::new(alloc);
    add_term(&mut sum, first)?;
    'terms: for i in 0..words.len() / 2 {
        add_term(&mut sum, words[2 * i + 1])?;
    }
    Ok(sum)
}
