/// An operator between two operands that are both evaluated (C11 6.5.5 to 6.5.12).
#[derive(Clone, Copy)]
pub enum Operator {
    Multiply,
    Divide,
    Remainder,
    Add,
    Subtract,
    ShiftLeft,
    ShiftRight,
    Less,
    Greater,
    LessEqual,
    GreaterEqual,
    Equal,
    NotEqual,
    BitAnd,
    BitXor,
    BitOr,
}

/// An operator before its operand that writes nothing (C11 6.5.3.3).
#[derive(Clone, Copy)]
pub enum Sign {
    Negate,
    Plus,
    Complement,
    Not,
}

/// Why an operator has no value.
#[derive(Clone, Copy)]
pub enum Undefined {
    /// A sum, difference, product or negation with a sign is out of range (C11 6.5, paragraph 5).
    Overflow,
    /// The divisor is 0 (C11 6.5.5, paragraph 5).
    ZeroDivisor,
    /// The quotient is out of range (C11 6.5.5, paragraph 6).
    Quotient,
    /// The count of a shift is negative or at least 32 (C11 6.5.7, paragraph 3).
    ShiftCount,
    /// A left shift of a negative value, or out of the type with a sign (C11 6.5.7, paragraph 4).
    LeftShift,
}
