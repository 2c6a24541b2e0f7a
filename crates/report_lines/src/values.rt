// Values of words: each is written as the word that it was read from.
ghost use Rattle.std.specs.Prelude.{◌≡◌, ◌<◌, ◌^◌, true, unsigned_abs};
ghost use Rattle.std.specs.Fmt.{decimal, signed_decimal};
ghost use Rattle.report_words.specs.Words.{address_word};
ghost use Rattle.report_words.specs.Numbers.{is_number, number_of, is_signed, signed_of, is_address, address_of};

use report_words::{address, number, signed};

/// A number below 2^64.
#[tactic(auto, using(crate::proofs::ValueLemmas::digits, crate::proofs::ValueLemmas::written))]
pub fn whole(word: &[u8]) -> u64
    requires form { is_number word.now ≡ true }
    requires small { number_of word.now < 2 ^ 64 }
    ensures { decimal result ≡ word.now }
{
    number(word) as u64
}

/// A number below 2^32.
#[tactic(auto, using(crate::proofs::ValueLemmas::digits, crate::proofs::ValueLemmas::written))]
pub fn small(word: &[u8]) -> u32
    requires form { is_number word.now ≡ true }
    requires small { number_of word.now < 2 ^ 32 }
    ensures { decimal result ≡ word.now }
{
    number(word) as u32
}

/// A number below 2^8.
#[tactic(auto, using(crate::proofs::ValueLemmas::digits, crate::proofs::ValueLemmas::written))]
pub fn byte(word: &[u8]) -> u8
    requires form { is_number word.now ≡ true }
    requires small { number_of word.now < 2 ^ 8 }
    ensures { decimal result ≡ word.now }
{
    number(word) as u8
}

/// A number below 2^120, without a sign.
#[tactic(auto, using(crate::proofs::ValueLemmas::digits, crate::proofs::ValueLemmas::written_signed))]
pub fn amount(word: &[u8]) -> i128
    requires form { is_number word.now ≡ true }
    requires small { number_of word.now < 2 ^ 120 }
    ensures { signed_decimal result ≡ word.now }
{
    number(word) as i128
}

/// A number below 2^120 in absolute value.
#[tactic(auto, using(crate::proofs::ValueLemmas::signed_written))]
pub fn integer(word: &[u8]) -> i128
    requires form { is_signed word.now ≡ true }
    requires small { unsigned_abs (signed_of word.now) < 2 ^ 120 }
    ensures written { signed_decimal result ≡ word.now }
    ensures value { result ≡ signed_of word.now }
{
    signed(word)
}

/// An address.
#[tactic(auto, using(crate::proofs::ValueLemmas::address_written))]
pub fn place(word: &[u8]) -> u32
    requires { is_address word.now ≡ true }
    ensures written { address_word result ≡ word.now }
    ensures value { result ≡ address_of word.now }
{
    address(word)
}
