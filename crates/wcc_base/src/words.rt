//! The operators of C on words of 32 bits, made total as the machine's are.
ghost use Rattle.std.specs.Prelude.{◌≡◌, ◌≤◌, int_lt};
ghost use Rattle.wcc_base.specs.Words.{signed_word, sign_filled, truth_word, left_shift_word, right_shift_word, signed_right_shift_word, signed_quotient_word, signed_remainder_word, quotient_word, remainder_word};

use crate::sign_extend;

/// The number of a word in two's complement.
pub fn signed(x: u32) -> i32
    ensures { result ≡ signed_word x }
{
    sign_extend(x, 32)
}

/// The low bits of a word, filled up with copies of their sign.
pub fn sign_filled(word: u32, bits: u32) -> u32
    requires some { 1 ≤ bits }
    requires most { bits ≤ 32 }
    ensures { result ≡ sign_filled bits word }
{
    sign_extend(word, bits).cast_unsigned()
}

/// 1 for a test that holds, else 0.
pub fn truth(test: bool) -> u32
    ensures { result ≡ truth_word test }
{
    if test { 1 } else { 0 }
}

/// Whether a word is less than another one, both with a sign.
pub fn is_less(x: u32, y: u32) -> bool
    ensures { result ≡ int_lt (signed_word x) (signed_word y) }
{
    signed(x) < signed(y)
}

/// A shift counts by the low five bits of its right side, as the two right shifts do.
pub fn shift_left(x: u32, y: u32) -> u32
    ensures { result ≡ left_shift_word x y }
{
    x << (y % 32)
}

/// The right shift that fills with zeros.
pub fn shift_right(x: u32, y: u32) -> u32
    ensures { result ≡ right_shift_word x y }
{
    x >> (y % 32)
}

/// The right shift that fills with copies of the sign.
pub fn shift_right_signed(x: u32, y: u32) -> u32
    ensures { result ≡ signed_right_shift_word x y }
{
    (signed(x) >> (y % 32)).cast_unsigned()
}

/// The quotient toward zero: -1 where the divisor is 0, and -2^31 where it overflows.
pub fn quotient(x: u32, y: u32) -> u32
    ensures { result ≡ signed_quotient_word x y }
{
    if y == 0 {
        return (-1i32).cast_unsigned();
    }
    signed(x).wrapping_div(signed(y)).cast_unsigned()
}

/// The remainder of that quotient: the dividend where the divisor is 0, and 0 where it overflows.
pub fn remainder(x: u32, y: u32) -> u32
    ensures { result ≡ signed_remainder_word x y }
{
    if y == 0 {
        return x;
    }
    signed(x).wrapping_rem(signed(y)).cast_unsigned()
}

/// The quotient of numbers without a sign: all bits set where the divisor is 0.
pub fn quotient_unsigned(x: u32, y: u32) -> u32
    ensures { result ≡ quotient_word x y }
{
    if y == 0 {
        return u32::MAX;
    }
    x / y
}

/// The remainder of that quotient: the dividend where the divisor is 0.
pub fn remainder_unsigned(x: u32, y: u32) -> u32
    ensures { result ≡ remainder_word x y }
{
    if y == 0 {
        return x;
    }
    x % y
}
