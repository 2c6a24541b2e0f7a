// What the operators compute.
ghost use Rattle.std.specs.Prelude.{◌≡◌};
ghost use Rattle.high_ir.specs.Words.{converted, unary_word, binary_word};

use super::expression::{BinaryOperator, UnaryOperator};
use super::object::Kind;
use wcc_base::words::{
    is_less, quotient, quotient_unsigned, remainder, remainder_unsigned, shift_left, shift_right,
    shift_right_signed, sign_filled, truth,
};

impl Kind {
    /// What an element of the kind keeps of a word.
    #[tactic(auto, unfolding(crate::specs::Words::converted))]
    pub fn convert(self, word: u32) -> u32
        ensures { result ≡ converted self word }
    {
        match self {
            Kind::Unsigned8 => word % 256,
            Kind::Signed8 => sign_filled(word, 8),
            Kind::Unsigned16 => word % 65536,
            Kind::Signed16 => sign_filled(word, 16),
            Kind::Word => word,
        }
    }
}

impl UnaryOperator {
    #[tactic(auto, unfolding(crate::specs::Words::unary_word))]
    pub fn apply(self, operand: u32) -> u32
        ensures { result ≡ unary_word self operand }
    {
        match self {
            UnaryOperator::Negate => 0u32.wrapping_sub(operand),
            UnaryOperator::Complement => operand ^ u32::MAX,
            UnaryOperator::IsZero => truth(operand == 0),
            UnaryOperator::Convert(kind) => kind.convert(operand),
        }
    }
}

impl BinaryOperator {
    #[tactic(auto, unfolding(crate::specs::Words::binary_word))]
    pub fn apply(self, left: u32, right: u32) -> u32
        ensures { result ≡ binary_word self left right }
    {
        match self {
            BinaryOperator::Add => left.wrapping_add(right),
            BinaryOperator::Subtract => left.wrapping_sub(right),
            BinaryOperator::Multiply => left.wrapping_mul(right),
            BinaryOperator::Divide => quotient(left, right),
            BinaryOperator::DivideUnsigned => quotient_unsigned(left, right),
            BinaryOperator::Remainder => remainder(left, right),
            BinaryOperator::RemainderUnsigned => remainder_unsigned(left, right),
            BinaryOperator::And => left & right,
            BinaryOperator::Or => left | right,
            BinaryOperator::Xor => left ^ right,
            BinaryOperator::ShiftLeft => shift_left(left, right),
            BinaryOperator::ShiftRight => shift_right_signed(left, right),
            BinaryOperator::ShiftRightUnsigned => shift_right(left, right),
            BinaryOperator::Equal => truth(left == right),
            BinaryOperator::NotEqual => truth(truth(left == right) == 0),
            BinaryOperator::Less => truth(is_less(left, right)),
            BinaryOperator::LessUnsigned => truth(left < right),
            BinaryOperator::AtLeast => truth(truth(is_less(left, right)) == 0),
            BinaryOperator::AtLeastUnsigned => truth(truth(left < right) == 0),
        }
    }
}
