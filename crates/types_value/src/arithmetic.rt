ghost use Rattle.std.specs.Prelude.{◌≡◌, ◌<◌, ◌*◌, ◌^◌, nat_le, ◌*ℤ◌};
ghost use Rattle.types_value.specs.Operators.{computed, less_of, not_divided, not_shifted_left, overflows, quotient_of, remainder_of, right_shift_of, signed_by, undefined, when, word_of};

use super::kind::Kind;
use super::operator::{Operator, Sign, Undefined};
use wcc_base::words::{
    is_less, quotient, quotient_unsigned, remainder, remainder_unsigned, shift_left, shift_right,
    shift_right_signed, signed, truth,
};

/// Whether a number is none of 32 bits with a sign.
fn overflows(number: i64) -> bool
    ensures { result ≡ overflows number }
{
    !(number >= -2_147_483_648 && number <= 2_147_483_647)
}

/// The product of two numbers, which 64 bits hold.
fn product(left: i32, right: i32) -> i64
    ensures { result ≡ left *ℤ right }
{
    i64::from(left) * i64::from(right)
}

fn when(fails: bool, cause: Undefined) -> Option<Undefined>
    ensures { result ≡ when fails cause }
{
    if fails { Some(cause) } else { None }
}

fn not_divided(signed: bool, left: u32, right: u32) -> Option<Undefined>
    ensures { result ≡ not_divided signed left right }
{
    if right == 0 {
        return Some(Undefined::ZeroDivisor);
    }
    when(
        signed && left == 2_147_483_648 && right == 4_294_967_295,
        Undefined::Quotient,
    )
}

/// Whether a word times a power of two is no number with a sign.
fn leaves(word: u32, count: u32) -> bool
    requires { count < 32 }
    ensures { result ≡ nat_le (2 ^ 31) (word * 2 ^ count) }
{
    u64::from(word) << count >= 2_147_483_648
}

fn not_shifted_left(signed: bool, left: u32, right: u32) -> Option<Undefined>
    ensures { result ≡ not_shifted_left signed left right }
{
    if right >= 32 {
        return Some(Undefined::ShiftCount);
    }
    when(signed && leaves(left, right), Undefined::LeftShift)
}

fn undefined(operator: Operator, signs: bool, left: u32, right: u32) -> Option<Undefined>
    ensures { result ≡ undefined operator signs left right }
{
    let (x, y) = (signed(left), signed(right));
    match operator {
        Operator::Multiply => when(signs && overflows(product(x, y)), Undefined::Overflow),
        Operator::Divide => not_divided(signs, left, right),
        Operator::Remainder => not_divided(signs, left, right),
        Operator::Add => when(
            signs && overflows(i64::from(x) + i64::from(y)),
            Undefined::Overflow,
        ),
        Operator::Subtract => when(
            signs && overflows(i64::from(x) - i64::from(y)),
            Undefined::Overflow,
        ),
        Operator::ShiftLeft => not_shifted_left(signs, left, right),
        Operator::ShiftRight => when(right >= 32, Undefined::ShiftCount),
        _ => None,
    }
}

/// 1 where the left word is less than the right one, else 0.
fn less(signs: bool, left: u32, right: u32) -> u32
    ensures { result ≡ less_of signs left right }
{
    if signs {
        truth(is_less(left, right))
    } else {
        truth(left < right)
    }
}

fn quotient_of(signs: bool, left: u32, right: u32) -> u32
    ensures { result ≡ quotient_of signs left right }
{
    if signs {
        quotient(left, right)
    } else {
        quotient_unsigned(left, right)
    }
}

fn remainder_of(signs: bool, left: u32, right: u32) -> u32
    ensures { result ≡ remainder_of signs left right }
{
    if signs {
        remainder(left, right)
    } else {
        remainder_unsigned(left, right)
    }
}

fn right_shift_of(signs: bool, left: u32, right: u32) -> u32
    ensures { result ≡ right_shift_of signs left right }
{
    if signs {
        shift_right_signed(left, right)
    } else {
        shift_right(left, right)
    }
}

/// The word of an operator that has a value.
fn word_of(operator: Operator, signs: bool, left: u32, right: u32) -> u32
    ensures { result ≡ word_of operator signs left right }
{
    match operator {
        Operator::Multiply => left.wrapping_mul(right),
        Operator::Divide => quotient_of(signs, left, right),
        Operator::Remainder => remainder_of(signs, left, right),
        Operator::Add => left.wrapping_add(right),
        Operator::Subtract => left.wrapping_sub(right),
        Operator::ShiftLeft => shift_left(left, right),
        Operator::ShiftRight => right_shift_of(signs, left, right),
        Operator::Less => less(signs, left, right),
        Operator::Greater => less(signs, right, left),
        Operator::LessEqual => truth(less(signs, right, left) == 0),
        Operator::GreaterEqual => truth(less(signs, left, right) == 0),
        Operator::Equal => truth(left == right),
        Operator::NotEqual => truth(truth(left == right) == 0),
        Operator::BitAnd => left & right,
        Operator::BitXor => left ^ right,
        Operator::BitOr => left | right,
    }
}

impl Operator {
    /// What the operator gives of two words that were converted to a type.
    #[tactic(auto, unfolding(crate::specs::Operators::computed))]
    pub fn compute(self, kind: Kind, left: u32, right: u32) -> Result<u32, Undefined>
        ensures { result ≡ computed self kind left right }
    {
        match undefined(self, kind.is_signed(), left, right) {
            Some(cause) => Err(cause),
            None => Ok(word_of(self, kind.is_signed(), left, right)),
        }
    }
}

impl Sign {
    /// What the operator gives of a word that was promoted to a type.
    #[tactic(auto, unfolding(crate::specs::Operators::signed_by))]
    pub fn compute(self, kind: Kind, word: u32) -> Result<u32, Undefined>
        ensures { result ≡ signed_by self kind word }
    {
        match self {
            Sign::Negate => {
                if kind.is_signed() && word == 2_147_483_648 {
                    return Err(Undefined::Overflow);
                }
                Ok(0u32.wrapping_sub(word))
            }
            Sign::Plus => Ok(word),
            Sign::Complement => Ok(!word),
            Sign::Not => Ok(truth(word == 0)),
        }
    }
}
