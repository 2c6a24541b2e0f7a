// What instructions write, and whether operands are the same.
ghost use Rattle.std.specs.Prelude.{◌≡◌, true};
ghost use Rattle.low_ir.specs.Formed.{written_by};
ghost use Rattle.low_ir.specs.View.{instr_of, operand_of};

use low_ir::{Instr, Operand};

/// The register that an instruction writes.
pub fn written(instr: &Instr) -> Option<u32>
    ensures { result ≡ written_by (instr_of instr.now) }
{
    match instr {
        Instr::Set { into, .. } => Some(*into),
        Instr::Operate { into, .. } => Some(*into),
        Instr::Point { into, .. } => Some(*into),
        Instr::Load { into, .. } => Some(*into),
        Instr::Store { .. } => None,
        Instr::Put { .. } => None,
        Instr::Get { into } => Some(*into),
        Instr::Call { into, .. } => *into,
    }
}

/// Whether two operands are the same.
pub fn same_operand(a: Operand, b: Operand) -> bool
    ensures { result ≡ true → operand_of a ≡ operand_of b }
{
    match a {
        Operand::Register(register) => match b {
            Operand::Register(other) => register == other,
            Operand::Constant(_) => false,
        },
        Operand::Constant(word) => match b {
            Operand::Register(_) => false,
            Operand::Constant(other) => word == other,
        },
    }
}
