// What operators give back, and which give only words.
ghost use Rattle.std.specs.Prelude.{◌≡◌};
ghost use Rattle.high_folded.specs.Ranges.{is_commutative, is_neutral, is_word_neutral, operator_is_word};

use high_ir::expression::BinaryOperator;

/// Whether an operator gives back its left side, whatever number that is, where its right side is this constant.
pub fn is_neutral(operator: BinaryOperator, word: u32) -> bool
    ensures { result ≡ is_neutral operator word }
{
    match operator {
        BinaryOperator::Add => false,
        BinaryOperator::Subtract => false,
        BinaryOperator::Multiply => false,
        BinaryOperator::Divide => false,
        BinaryOperator::DivideUnsigned => word == 1,
        BinaryOperator::Remainder => false,
        BinaryOperator::RemainderUnsigned => false,
        BinaryOperator::And => false,
        BinaryOperator::Or => word == 0,
        BinaryOperator::Xor => word == 0,
        BinaryOperator::ShiftLeft => false,
        BinaryOperator::ShiftRight => false,
        BinaryOperator::ShiftRightUnsigned => word == 0,
        BinaryOperator::Equal => false,
        BinaryOperator::NotEqual => false,
        BinaryOperator::Less => false,
        BinaryOperator::LessUnsigned => false,
        BinaryOperator::AtLeast => false,
        BinaryOperator::AtLeastUnsigned => false,
    }
}

/// The same where its left side is a word.
pub fn is_word_neutral(operator: BinaryOperator, word: u32) -> bool
    ensures { result ≡ is_word_neutral operator word }
{
    match operator {
        BinaryOperator::Add => word == 0,
        BinaryOperator::Subtract => word == 0,
        BinaryOperator::Multiply => word == 1,
        BinaryOperator::Divide => false,
        BinaryOperator::DivideUnsigned => false,
        BinaryOperator::Remainder => false,
        BinaryOperator::RemainderUnsigned => false,
        BinaryOperator::And => word == u32::MAX,
        BinaryOperator::Or => false,
        BinaryOperator::Xor => false,
        BinaryOperator::ShiftLeft => word == 0,
        BinaryOperator::ShiftRight => word == 0,
        BinaryOperator::ShiftRightUnsigned => false,
        BinaryOperator::Equal => false,
        BinaryOperator::NotEqual => false,
        BinaryOperator::Less => false,
        BinaryOperator::LessUnsigned => false,
        BinaryOperator::AtLeast => false,
        BinaryOperator::AtLeastUnsigned => false,
    }
}

/// Whether the sides of an operator may be turned.
pub fn is_commutative(operator: BinaryOperator) -> bool
    ensures { result ≡ is_commutative operator }
{
    match operator {
        BinaryOperator::Add => true,
        BinaryOperator::Subtract => false,
        BinaryOperator::Multiply => true,
        BinaryOperator::Divide => false,
        BinaryOperator::DivideUnsigned => false,
        BinaryOperator::Remainder => false,
        BinaryOperator::RemainderUnsigned => false,
        BinaryOperator::And => true,
        BinaryOperator::Or => true,
        BinaryOperator::Xor => true,
        BinaryOperator::ShiftLeft => false,
        BinaryOperator::ShiftRight => false,
        BinaryOperator::ShiftRightUnsigned => false,
        BinaryOperator::Equal => false,
        BinaryOperator::NotEqual => false,
        BinaryOperator::Less => false,
        BinaryOperator::LessUnsigned => false,
        BinaryOperator::AtLeast => false,
        BinaryOperator::AtLeastUnsigned => false,
    }
}

/// Whether an operator gives a word for any two numbers.
pub fn operator_is_word(operator: BinaryOperator) -> bool
    ensures { result ≡ operator_is_word operator }
{
    match operator {
        BinaryOperator::Add => true,
        BinaryOperator::Subtract => true,
        BinaryOperator::Multiply => true,
        BinaryOperator::Divide => true,
        BinaryOperator::DivideUnsigned => false,
        BinaryOperator::Remainder => false,
        BinaryOperator::RemainderUnsigned => false,
        BinaryOperator::And => false,
        BinaryOperator::Or => false,
        BinaryOperator::Xor => false,
        BinaryOperator::ShiftLeft => true,
        BinaryOperator::ShiftRight => true,
        BinaryOperator::ShiftRightUnsigned => false,
        BinaryOperator::Equal => true,
        BinaryOperator::NotEqual => true,
        BinaryOperator::Less => true,
        BinaryOperator::LessUnsigned => true,
        BinaryOperator::AtLeast => true,
        BinaryOperator::AtLeastUnsigned => true,
    }
}
