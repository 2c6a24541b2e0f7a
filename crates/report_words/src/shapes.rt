// What the words of a line have to be.
ghost use Rattle.std.specs.Prelude.{◌≡◌, true, map};
ghost use Rattle.report_words.specs.Shapes.{is_dash, are_letters, has_form, is_in_range, fit, are_in_range};

use crate::names::is_name;
use crate::numbers::{MOST, is_address, is_number, is_signed, magnitude, number};

/// What a word has to be.
#[derive(Clone, Copy)]
pub enum Shape {
    /// A number from `least` to `most`.
    Number { least: u64, most: u64 },
    /// A number from `least` on, below 2^120.
    Amount { least: u64 },
    /// A number below 2^120 in absolute value, maybe behind a minus.
    Signed,
    /// Eight hexadecimal digits.
    Address,
    /// A name of the source language.
    Name,
    /// A name, or `-`.
    Label,
    /// Letters of `fsr` in this order, and not none.
    Letters,
}

fn is_dash(word: &[u8]) -> bool
    ensures { result ≡ is_dash word.now }
{
    word.len() == 1 && word[0] == b'-'
}

fn are_letters(word: &[u8]) -> bool
    ensures { result ≡ are_letters word.now }
{
    match word {
        b"f" => true,
        b"s" => true,
        b"r" => true,
        b"fs" => true,
        b"fr" => true,
        b"sr" => true,
        b"fsr" => true,
        _ => false,
    }
}

// Whether a word has the form.
fn has_form(shape: Shape, word: &[u8]) -> bool
    ensures { result ≡ has_form shape word.now }
{
    match shape {
        Shape::Number { .. } => is_number(word),
        Shape::Amount { .. } => is_number(word),
        Shape::Signed => is_signed(word),
        Shape::Address => is_address(word),
        Shape::Name => is_name(word),
        Shape::Label => is_dash(word) || is_name(word),
        Shape::Letters => are_letters(word),
    }
}

// Whether the number of a word of that form is in range.
#[tactic(auto, using(crate::proofs::NumberLemmas::digits_of_number))]
fn is_in_range(shape: Shape, word: &[u8]) -> bool
    requires { has_form shape word.now ≡ true }
    ensures { result ≡ is_in_range shape word.now }
{
    match shape {
        Shape::Number { least, most } => {
            let number = number(word);
            u128::from(least) <= number && number <= u128::from(most)
        }
        Shape::Amount { least } => {
            let number = number(word);
            u128::from(least) <= number && number < MOST
        }
        Shape::Signed => magnitude(word) < MOST,
        Shape::Address => true,
        Shape::Name => true,
        Shape::Label => true,
        Shape::Letters => true,
    }
}

/// Whether there are as many words as shapes, each of its form.
pub fn fit(shapes: &[Shape], words: &[&[u8]]) -> bool
    ensures { result ≡ fit shapes.now (map (λ w. w.now) words.now) }
{
    if shapes.len() != words.len() {
        return false;
    }
    for i in 0..shapes.len() {
        if !has_form(shapes[i], words[i]) {
            return false;
        }
    }
    true
}

/// Whether the numbers of words that fit are in range.
pub fn are_in_range(shapes: &[Shape], words: &[&[u8]]) -> bool
    requires { fit shapes.now (map (λ w. w.now) words.now) ≡ true }
    ensures { result ≡ are_in_range shapes.now (map (λ w. w.now) words.now) }
{
    for i in 0..shapes.len() {
        if !is_in_range(shapes[i], words[i]) {
            return false;
        }
    }
    true
}
