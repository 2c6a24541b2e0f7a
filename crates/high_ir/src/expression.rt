use super::object::{Array, Kind};

/// An operator before its operand.
#[derive(Clone, Copy)]
pub enum UnaryOperator {
    Negate,
    Complement,
    IsZero,
    /// What an element of the kind keeps of a word.
    Convert(Kind),
}

/// An operator between two operands. Those that are named unsigned read words without a sign.
#[derive(Clone, Copy)]
pub enum BinaryOperator {
    Add,
    Subtract,
    Multiply,
    Divide,
    DivideUnsigned,
    Remainder,
    RemainderUnsigned,
    And,
    Or,
    Xor,
    ShiftLeft,
    ShiftRight,
    ShiftRightUnsigned,
    Equal,
    NotEqual,
    Less,
    LessUnsigned,
    AtLeast,
    AtLeastUnsigned,
}

/// An expression: a word of 32 bits, without an effect.
#[derive(Drop)]
pub enum Expr {
    Constant(u32),
    /// A variable of the function's frame.
    Variable(u32),
    Element {
        array: Array,
        index: Box<Expr>,
    },
    Unary {
        operator: UnaryOperator,
        operand: Box<Expr>,
    },
    Binary {
        operator: BinaryOperator,
        left: Box<Expr>,
        right: Box<Expr>,
    },
}
