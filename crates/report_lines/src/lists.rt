// The lines that have any number of words.
ghost use Rattle.std.specs.Prelude.{◌≡◌, ◌∷◌, ◌<◌, true, map, codes, IfOk, ◌^◌, nat_lt, unsigned_abs};
ghost use Rattle.std.specs.Fmt.{signed_decimal};
ghost use Rattle.report_words.specs.Words.{address_word};
ghost use Rattle.report_words.specs.Numbers.{is_signed, signed_of, address_of};
ghost use Rattle.report_text.specs.Lines.{copy_line, column_line};
ghost use Rattle.report_lines.specs.LineLists.{are_addresses, are_integers, are_small};

use crate::values::{integer, place};
use code_flow_answer::Column;
use report_text::CopyLine;
use report_words::{Shape, are_in_range, is_address, is_signed};
use std::alloc::Global;
use wcc_base::{Items, Memory, Text};

/// Whether each word is an address.
pub fn are_addresses(words: &[&[u8]]) -> bool
    ensures { result ≡ are_addresses (map (λ w. w.now) words.now) }
{
    for word in words {
        if !is_address(word) {
            return false;
        }
    }
    true
}

/// Whether each word is a number, maybe behind a minus.
pub fn are_integers(words: &[&[u8]]) -> bool
    ensures { result ≡ are_integers (map (λ w. w.now) words.now) }
{
    for word in words {
        if !is_signed(word) {
            return false;
        }
    }
    true
}

// Whether a number is below 2^120 in absolute value.
#[tactic(auto, using(crate::proofs::FitLemmas::and_true))]
fn is_small(word: &[u8]) -> bool
    requires { is_signed word.now ≡ true }
    ensures { result ≡ nat_lt (unsigned_abs (signed_of word.now)) (2 ^ 120) }
{
    are_in_range(&[Shape::Signed], &[word])
}

/// Whether each of the numbers is below 2^120 in absolute value.
pub fn are_small(words: &[&[u8]]) -> bool
    requires { are_integers (map (λ w. w.now) words.now) ≡ true }
    ensures { result ≡ are_small (map (λ w. w.now) words.now) }
{
    for word in words {
        if !is_small(word) {
            return false;
        }
    }
    true
}

// The addresses of words.
fn addresses(alloc: Global, words: &[&[u8]]) -> Result<Vec<u32>, Memory>
    requires { are_addresses (map (λ w. w.now) words.now) ≡ true }
    ensures written { IfOk result (λ v. map address_word v.items ≡ map (λ w. w.now) words.now) }
    ensures values { IfOk result (λ v. v.items ≡ map address_of (map (λ w. w.now) words.now)) }
{
    let mut addresses = Vec::new(alloc);
    for word in words {
        addresses.push(place(word))?;
    }
    Ok(addresses)
}

// The numbers of words.
fn integers(alloc: Global, words: &[&[u8]]) -> Result<Vec<i128>, Memory>
    requires form { are_integers (map (λ w. w.now) words.now) ≡ true }
    requires small { are_small (map (λ w. w.now) words.now) ≡ true }
    ensures written { IfOk result (λ v. map signed_decimal v.items ≡ map (λ w. w.now) words.now) }
    ensures values { IfOk result (λ v. v.items ≡ map signed_of (map (λ w. w.now) words.now)) }
{
    let mut integers = Vec::new(alloc);
    for word in words {
        integers.push(integer(word))?;
    }
    Ok(integers)
}

/// The name and the places of a line `copy`.
pub fn copy(alloc: Global, name: &[u8], places: &[&[u8]]) -> Result<CopyLine, Memory>
    requires { are_addresses (map (λ w. w.now) places.now) ≡ true }
    ensures written { IfOk result (λ line. copy_line line ≡ codes "copy" ∷ name.now ∷ map (λ w. w.now) places.now) }
    ensures values { IfOk result (λ line. (line.name ≡ name.now) × (line.places ≡ map address_of (map (λ w. w.now) places.now))) }
{
    let places = addresses(alloc, places)?;
    let bytes = Vec::from_slice(alloc, name)?;
    Ok(CopyLine {
        name: Text::new(bytes),
        places: Items::new(places),
    })
}

/// The value and the totals of a line `column`.
pub fn column(alloc: Global, value: &[u8], totals: &[&[u8]]) -> Result<Column, Memory>
    requires form { are_integers (value.now ∷ map (λ w. w.now) totals.now) ≡ true }
    requires small { are_small (value.now ∷ map (λ w. w.now) totals.now) ≡ true }
    ensures written { IfOk result (λ column. column_line column ≡ codes "column" ∷ value.now ∷ map (λ w. w.now) totals.now) }
    ensures values { IfOk result (λ column. (column.value ≡ signed_of value.now) × (column.totals ≡ map signed_of (map (λ w. w.now) totals.now))) }
{
    let value = integer(value);
    let totals = integers(alloc, totals)?;
    Ok(Column {
        value,
        totals: Items::new(totals),
    })
}
