// What instructions compute of words.
ghost use Rattle.std.specs.Prelude.{◌≡◌, ◌*◌, ◌/◌, ◌^◌, ◌<◌, ◌*ℤ◌, unsigned_abs};
ghost use Rattle.rv_core.specs.Arithmetic.{upper_word, alu_value, holds, byte_count, extended};

use crate::row::{Alu, Condition, Width};
use crate::signs::extend;
use wcc_base::words::{
    is_less, quotient, quotient_unsigned, remainder, remainder_unsigned, shift_left, shift_right,
    shift_right_signed, signed,
};

/// The upper word of a product of two signed numbers.
fn high_product(x: i32, y: i64) -> u32
    requires { unsigned_abs y < 2 ^ 32 }
    ensures { result ≡ upper_word (x *ℤ y) }
{
    ((i64::from(x) * y).cast_unsigned() >> 32) as u32
}

fn high_product_unsigned(x: u32, y: u32) -> u32
    ensures { result ≡ x * y / 2 ^ 32 }
{
    ((u64::from(x) * u64::from(y)) >> 32) as u32
}

impl Condition {
    /// Whether two words meet the condition.
    #[tactic(auto, unfolding(crate::specs::Arithmetic::holds))]
    pub fn holds(self, x: u32, y: u32) -> bool
        ensures { result ≡ holds self x y }
    {
        match self {
            Condition::Equal => x == y,
            Condition::NotEqual => !(x == y),
            Condition::Less => is_less(x, y),
            Condition::AtLeast => !is_less(x, y),
            Condition::LessUnsigned => x < y,
            Condition::AtLeastUnsigned => !(x < y),
        }
    }
}

impl Width {
    /// How many bytes a load or a store of this width touches.
    pub fn byte_count(self) -> u32
        ensures { result ≡ byte_count self }
    {
        match self {
            Width::Byte => 1,
            Width::Half => 2,
            Width::Word => 4,
        }
    }

    /// The word that a load of this width makes of the number that it found.
    #[tactic(auto, unfolding(crate::specs::Arithmetic::extended))]
    pub fn extended(self, signed: bool, number: u32) -> u32
        requires { number < 2 ^ (8 * byte_count self) }
        ensures { result ≡ extended self signed number }
    {
        if !signed {
            return number;
        }
        match self {
            Width::Byte => extend(number, 8).cast_unsigned(),
            Width::Half => extend(number, 16).cast_unsigned(),
            Width::Word => number,
        }
    }
}

impl Alu {
    /// The value of the function.
    #[tactic(auto, unfolding(crate::specs::Arithmetic::alu_value))]
    pub fn value(self, x: u32, y: u32) -> u32
        ensures { result ≡ alu_value self x y }
    {
        match self {
            Alu::Sum => x.wrapping_add(y),
            Alu::Difference => x.wrapping_sub(y),
            Alu::ShiftLeft => shift_left(x, y),
            Alu::IsLess => u32::from(is_less(x, y)),
            Alu::IsLessUnsigned => u32::from(x < y),
            Alu::BitXor => x ^ y,
            Alu::ShiftRight => shift_right(x, y),
            Alu::ShiftRightSigned => shift_right_signed(x, y),
            Alu::BitOr => x | y,
            Alu::BitAnd => x & y,
            Alu::Product => x.wrapping_mul(y),
            Alu::HighProduct => high_product(signed(x), i64::from(signed(y))),
            Alu::HighProductMixed => high_product(signed(x), i64::from(y)),
            Alu::HighProductUnsigned => high_product_unsigned(x, y),
            Alu::Quotient => quotient(x, y),
            Alu::QuotientUnsigned => quotient_unsigned(x, y),
            Alu::Remainder => remainder(x, y),
            Alu::RemainderUnsigned => remainder_unsigned(x, y),
        }
    }
}
