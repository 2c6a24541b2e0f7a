ghost use Rattle.std.specs.Prelude.{◌≡◌};
ghost use Rattle.types_rules.specs.Operations.{constant_kind, left_kind, operator_of, right_kind, sign_kind, sign_of, update_of, value_kind};

use c_tree::expression::{AssignOperator, BinaryOperator, PrefixOperator};
use c_tree::token::ConstantType;
use types_value::{Kind, Operator, Sign};

pub fn constant_kind(scalar: ConstantType) -> Kind
    ensures { result ≡ constant_kind scalar }
{
    match scalar {
        ConstantType::Int => Kind::Int,
        ConstantType::Long => Kind::Long,
        ConstantType::Unsigned => Kind::Unsigned,
    }
}

/// The operator, if it evaluates both operands.
pub fn operator_of(operator: BinaryOperator) -> Option<Operator>
    ensures { result ≡ operator_of operator }
{
    match operator {
        BinaryOperator::Multiply => Some(Operator::Multiply),
        BinaryOperator::Divide => Some(Operator::Divide),
        BinaryOperator::Remainder => Some(Operator::Remainder),
        BinaryOperator::Add => Some(Operator::Add),
        BinaryOperator::Subtract => Some(Operator::Subtract),
        BinaryOperator::ShiftLeft => Some(Operator::ShiftLeft),
        BinaryOperator::ShiftRight => Some(Operator::ShiftRight),
        BinaryOperator::Less => Some(Operator::Less),
        BinaryOperator::Greater => Some(Operator::Greater),
        BinaryOperator::LessEqual => Some(Operator::LessEqual),
        BinaryOperator::GreaterEqual => Some(Operator::GreaterEqual),
        BinaryOperator::Equal => Some(Operator::Equal),
        BinaryOperator::NotEqual => Some(Operator::NotEqual),
        BinaryOperator::BitAnd => Some(Operator::BitAnd),
        BinaryOperator::BitXor => Some(Operator::BitXor),
        BinaryOperator::BitOr => Some(Operator::BitOr),
        BinaryOperator::And => None,
        BinaryOperator::Or => None,
        BinaryOperator::Comma => None,
    }
}

/// The operator of a compound assignment.
pub fn update_of(operator: AssignOperator) -> Option<Operator>
    ensures { result ≡ update_of operator }
{
    match operator {
        AssignOperator::Assign => None,
        AssignOperator::Multiply => Some(Operator::Multiply),
        AssignOperator::Divide => Some(Operator::Divide),
        AssignOperator::Remainder => Some(Operator::Remainder),
        AssignOperator::Add => Some(Operator::Add),
        AssignOperator::Subtract => Some(Operator::Subtract),
        AssignOperator::ShiftLeft => Some(Operator::ShiftLeft),
        AssignOperator::ShiftRight => Some(Operator::ShiftRight),
        AssignOperator::BitAnd => Some(Operator::BitAnd),
        AssignOperator::BitXor => Some(Operator::BitXor),
        AssignOperator::BitOr => Some(Operator::BitOr),
    }
}

/// The operator, if it writes nothing.
pub fn sign_of(operator: PrefixOperator) -> Option<Sign>
    ensures { result ≡ sign_of operator }
{
    match operator {
        PrefixOperator::Negate => Some(Sign::Negate),
        PrefixOperator::Plus => Some(Sign::Plus),
        PrefixOperator::Complement => Some(Sign::Complement),
        PrefixOperator::Not => Some(Sign::Not),
        PrefixOperator::Increment => None,
        PrefixOperator::Decrement => None,
    }
}

/// The type at which an operator computes.
pub fn left_kind(operator: Operator, left: Kind, right: Kind) -> Kind
    ensures { result ≡ left_kind operator left right }
{
    match operator {
        Operator::ShiftLeft => left.promoted(),
        Operator::ShiftRight => left.promoted(),
        _ => left.common(right),
    }
}

/// The type to which the right operand is converted.
pub fn right_kind(operator: Operator, left: Kind, right: Kind) -> Kind
    ensures { result ≡ right_kind operator left right }
{
    match operator {
        Operator::ShiftLeft => right.promoted(),
        Operator::ShiftRight => right.promoted(),
        _ => left.common(right),
    }
}

/// The type of an operator's value.
pub fn value_kind(operator: Operator, left: Kind, right: Kind) -> Kind
    ensures { result ≡ value_kind operator left right }
{
    match operator {
        Operator::Less => Kind::Int,
        Operator::Greater => Kind::Int,
        Operator::LessEqual => Kind::Int,
        Operator::GreaterEqual => Kind::Int,
        Operator::Equal => Kind::Int,
        Operator::NotEqual => Kind::Int,
        other => left_kind(other, left, right),
    }
}

/// The type of the value of an operator before an operand.
pub fn sign_kind(sign: Sign, operand: Kind) -> Kind
    ensures { result ≡ sign_kind sign operand }
{
    match sign {
        Sign::Not => Kind::Int,
        _ => operand.promoted(),
    }
}
