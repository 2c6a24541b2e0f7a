// Which words are numbers and addresses, and what they say.
ghost use Rattle.std.specs.Prelude.{◌≡◌, ◌<◌, ◌≤◌, ◌^◌, ◌*◌, ◌+◌, ◌-◌, true, min, unsigned_abs};
ghost use Rattle.std.specs.Str.{all_ascii_digits};
ghost use Rattle.std.specs.Char.{is_ascii_digit};
ghost use Rattle.report_words.specs.Numbers.{is_number, number_of, is_positive, is_signed, signed_of, is_hex_digit, are_hex_digits, is_address, hex_value, address_of};

/// Above all numbers that a line may have.
pub const MOST: u128 = 1 << 120;

fn are_digits(word: &[u8]) -> bool
    ensures { result ≡ all_ascii_digits word.now }
{
    for byte in word {
        if !byte.is_ascii_digit() {
            return false;
        }
    }
    true
}

/// Whether a word is a number without a sign.
pub fn is_number(word: &[u8]) -> bool
    ensures { result ≡ is_number word.now }
{
    match word {
        [] => false,
        [first, rest @ ..] => {
            if *first == b'0' {
                rest.is_empty()
            } else {
                are_digits(word)
            }
        }
    }
}

// The number behind one more digit, or 2^120 where that is less.
fn extended(number: u128, digit: u8) -> u128
    requires capped { number ≤ 2 ^ 120 }
    requires digit { is_ascii_digit digit ≡ true }
    ensures { result ≡ min (10 * number + (digit - 48)) (2 ^ 120) }
{
    let extended = 10 * number + u128::from(digit - b'0');
    if extended < MOST { extended } else { MOST }
}

/// The number of digits, or 2^120 where that is less.
pub fn number(word: &[u8]) -> u128
    requires { all_ascii_digits word.now ≡ true }
    ensures { result ≡ min (number_of word.now) (2 ^ 120) }
{
    let mut number: u128 = 0;
    for byte in word {
        number = extended(number, *byte);
    }
    number
}

// Whether a word is a number that doesn't begin with 0.
fn is_positive(word: &[u8]) -> bool
    ensures { result ≡ is_positive word.now }
{
    match word {
        [] => false,
        [first, ..] => *first != b'0' && are_digits(word),
    }
}

/// Whether a word is a number, maybe behind a minus; 0 has none.
pub fn is_signed(word: &[u8]) -> bool
    ensures { result ≡ is_signed word.now }
{
    match word {
        [] => false,
        [first, rest @ ..] => {
            if *first == b'-' {
                is_positive(rest)
            } else {
                is_number(word)
            }
        }
    }
}

fn is_hex_digit(byte: u8) -> bool
    ensures { result ≡ is_hex_digit byte }
{
    byte.is_ascii_digit() || (b'a' <= byte && byte <= b'f')
}

fn are_hex_digits(word: &[u8]) -> bool
    ensures { result ≡ are_hex_digits word.now }
{
    for byte in word {
        if !is_hex_digit(*byte) {
            return false;
        }
    }
    true
}

/// Whether a word is an address: eight hexadecimal digits in lower case.
pub fn is_address(word: &[u8]) -> bool
    ensures { result ≡ is_address word.now }
{
    word.len() == 8 && are_hex_digits(word)
}

fn hex_value(byte: u8) -> u32
    requires { is_hex_digit byte ≡ true }
    ensures value { result ≡ hex_value byte }
    ensures small { result < 16 }
{
    if byte <= b'9' {
        u32::from(byte - b'0')
    } else {
        u32::from(byte - 87)
    }
}

/// The absolute value of a number, or 2^120 where that is less.
#[tactic(auto, using(crate::proofs::NumberLemmas::digits_of_number, crate::proofs::NumberLemmas::digits_of_positive))]
pub fn magnitude(word: &[u8]) -> u128
    requires { is_signed word.now ≡ true }
    ensures { result ≡ min (unsigned_abs (signed_of word.now)) (2 ^ 120) }
{
    match word {
        [] => 0,
        [first, rest @ ..] => {
            if *first == b'-' {
                number(rest)
            } else {
                number(word)
            }
        }
    }
}

// The number behind one more hexadecimal digit.
fn extended_address(address: u32, digit: u8) -> u32
    requires digit { is_hex_digit digit ≡ true }
    requires small { 16 * address + hex_value digit < 2 ^ 32 }
    ensures { result ≡ 16 * address + hex_value digit }
{
    16 * address + hex_value(digit)
}

/// The address of eight hexadecimal digits.
pub fn address(word: &[u8]) -> u32
    requires { is_address word.now ≡ true }
    ensures { result ≡ address_of word.now }
{
    let mut address = 0;
    for byte in word {
        address = extended_address(address, *byte);
    }
    address
}

/// A number, maybe behind a minus.
#[tactic(auto, using(crate::proofs::NumberLemmas::digits_of_number, crate::proofs::NumberLemmas::digits_of_positive))]
pub fn signed(word: &[u8]) -> i128
    requires form { is_signed word.now ≡ true }
    requires small { unsigned_abs (signed_of word.now) < 2 ^ 120 }
    ensures { result ≡ signed_of word.now }
{
    match word {
        [] => 0,
        [first, rest @ ..] => {
            if *first == b'-' {
                -(number(rest) as i128)
            } else {
                number(word) as i128
            }
        }
    }
}
