// Operators and conversions of the source, in the high form.
ghost use Rattle.std.specs.Prelude.{◌≡◌, IfOk};
ghost use Rattle.make_pieces.specs.View.{ordered};
ghost use Rattle.high_ir.specs.Tree as trees;
ghost use Rattle.high_ir.specs.View.{expr_of};
ghost use Rattle.plan_definition.specs.Operators.{convert, convert_to, kind_of, operated, signed};

use high_ir::expression::{BinaryOperator, Expr, UnaryOperator};
use high_ir::expressions::{binary, unary};
use high_ir::object::Kind;
use std::alloc::Global;
use types_value::{Kind as Type, Operator, Sign};
use wcc_base::Memory;

/// What elements of a type are.
pub fn kind_of(kind: Type) -> Kind
    ensures { result ≡ kind_of kind }
{
    match kind {
        Type::Char => Kind::Unsigned8,
        Type::SignedChar => Kind::Signed8,
        Type::UnsignedChar => Kind::Unsigned8,
        Type::Short => Kind::Signed16,
        Type::UnsignedShort => Kind::Unsigned16,
        Type::Void | Type::Int | Type::Unsigned | Type::Long | Type::UnsignedLong => Kind::Word,
    }
}

fn convert_to(alloc: Global, kind: Kind, value: Expr) -> Result<Expr, Memory>
    ensures { IfOk result (λ e. expr_of e ≡ convert_to kind (expr_of value)) }
{
    match kind {
        Kind::Word => Ok(value),
        Kind::Unsigned8 => unary(alloc, UnaryOperator::Convert(kind), value),
        Kind::Signed8 => unary(alloc, UnaryOperator::Convert(kind), value),
        Kind::Unsigned16 => unary(alloc, UnaryOperator::Convert(kind), value),
        Kind::Signed16 => unary(alloc, UnaryOperator::Convert(kind), value),
    }
}

/// A value converted to a type; to one of 32 bits it is the same.
pub fn convert(alloc: Global, to: Type, value: Expr) -> Result<Expr, Memory>
    ensures { IfOk result (λ e. expr_of e ≡ convert to (expr_of value)) }
{
    convert_to(alloc, kind_of(to), value)
}

pub fn signed(alloc: Global, operator: Sign, value: Expr) -> Result<Expr, Memory>
    ensures { IfOk result (λ e. expr_of e ≡ signed operator (expr_of value)) }
{
    match operator {
        Sign::Negate => unary(alloc, UnaryOperator::Negate, value),
        Sign::Plus => Ok(value),
        Sign::Complement => unary(alloc, UnaryOperator::Complement, value),
        Sign::Not => unary(alloc, UnaryOperator::IsZero, value),
    }
}

/// An operator of the high form, and whether it takes its operands in their order.
#[derive(Clone, Copy)]
pub enum Order {
    Straight(BinaryOperator),
    Swapped(BinaryOperator),
}

/// The operator of the high form for one of the source.
fn ordered(operator: Operator, is_signed: bool) -> Order
    ensures { (x y : trees.Expr) → operated operator is_signed x y ≡ ordered result x y }
{
    match (operator, is_signed) {
        (Operator::Multiply, _) => Order::Straight(BinaryOperator::Multiply),
        (Operator::Divide, true) => Order::Straight(BinaryOperator::Divide),
        (Operator::Divide, false) => Order::Straight(BinaryOperator::DivideUnsigned),
        (Operator::Remainder, true) => Order::Straight(BinaryOperator::Remainder),
        (Operator::Remainder, false) => Order::Straight(BinaryOperator::RemainderUnsigned),
        (Operator::Add, _) => Order::Straight(BinaryOperator::Add),
        (Operator::Subtract, _) => Order::Straight(BinaryOperator::Subtract),
        (Operator::ShiftLeft, _) => Order::Straight(BinaryOperator::ShiftLeft),
        (Operator::ShiftRight, true) => Order::Straight(BinaryOperator::ShiftRight),
        (Operator::ShiftRight, false) => Order::Straight(BinaryOperator::ShiftRightUnsigned),
        (Operator::Less, true) => Order::Straight(BinaryOperator::Less),
        (Operator::Less, false) => Order::Straight(BinaryOperator::LessUnsigned),
        (Operator::Greater, true) => Order::Swapped(BinaryOperator::Less),
        (Operator::Greater, false) => Order::Swapped(BinaryOperator::LessUnsigned),
        (Operator::LessEqual, true) => Order::Swapped(BinaryOperator::AtLeast),
        (Operator::LessEqual, false) => Order::Swapped(BinaryOperator::AtLeastUnsigned),
        (Operator::GreaterEqual, true) => Order::Straight(BinaryOperator::AtLeast),
        (Operator::GreaterEqual, false) => Order::Straight(BinaryOperator::AtLeastUnsigned),
        (Operator::Equal, _) => Order::Straight(BinaryOperator::Equal),
        (Operator::NotEqual, _) => Order::Straight(BinaryOperator::NotEqual),
        (Operator::BitAnd, _) => Order::Straight(BinaryOperator::And),
        (Operator::BitXor, _) => Order::Straight(BinaryOperator::Xor),
        (Operator::BitOr, _) => Order::Straight(BinaryOperator::Or),
    }
}

/// An operator of the source between two values.
pub fn operated(
    alloc: Global,
    operator: Operator,
    is_signed: bool,
    left: Expr,
    right: Expr,
) -> Result<Expr, Memory>
    ensures { IfOk result (λ e. expr_of e ≡ operated operator is_signed (expr_of left) (expr_of right)) }
{
    match ordered(operator, is_signed) {
        Order::Straight(operator) => binary(alloc, operator, left, right),
        Order::Swapped(operator) => binary(alloc, operator, right, left),
    }
}
