// Whether operations are the same, and what they read.
ghost use Rattle.std.specs.Prelude.{◌≡◌, [], ◌∷◌, true};
ghost use Rattle.low_ir.specs.View.{operand_of};
ghost use Rattle.pass_common_subexpressions_law.specs.Facts.{Spares};

use low_ir::Operand;
use rv_core::Alu;

/// Whether two operators are the same, of those that are worth looking for.
pub fn same_operator(a: Alu, b: Alu) -> bool
    ensures { result ≡ true → a ≡ b }
{
    match a {
        Alu::Sum => match b {
            Alu::Sum => true,
            _ => false,
        },
        Alu::Difference => match b {
            Alu::Difference => true,
            _ => false,
        },
        Alu::ShiftLeft => match b {
            Alu::ShiftLeft => true,
            _ => false,
        },
        Alu::ShiftRight => match b {
            Alu::ShiftRight => true,
            _ => false,
        },
        Alu::ShiftRightSigned => match b {
            Alu::ShiftRightSigned => true,
            _ => false,
        },
        Alu::BitAnd => match b {
            Alu::BitAnd => true,
            _ => false,
        },
        Alu::BitOr => match b {
            Alu::BitOr => true,
            _ => false,
        },
        Alu::BitXor => match b {
            Alu::BitXor => true,
            _ => false,
        },
        Alu::Product => match b {
            Alu::Product => true,
            _ => false,
        },
        _ => false,
    }
}

/// Whether an operand isn't a register.
fn is_not(operand: Operand, register: u32) -> bool
    ensures { result ≡ true → Spares register (operand_of operand ∷ []) }
{
    match operand {
        Operand::Register(other) => other != register,
        Operand::Constant(_) => true,
    }
}

/// Whether no operand of two is a register.
pub fn are_spared(left: Operand, right: Operand, register: u32) -> bool
    ensures { result ≡ true → Spares register (operand_of left ∷ operand_of right ∷ []) }
{
    match left {
        Operand::Register(other) => other != register && is_not(right, register),
        Operand::Constant(_) => is_not(right, register),
    }
}
