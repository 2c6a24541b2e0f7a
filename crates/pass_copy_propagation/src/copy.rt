// Copies of registers in code.
ghost use Rattle.std.specs.Prelude.{◌≡◌, Some, map, IfSome, slice_get};
ghost use Rattle.low_ir.specs.Code.{Do, Register, Set};
ghost use Rattle.low_ir.specs.View.{instr_of};

use low_ir::{Instr, Operand};

/// A copy of a register.
#[derive(Clone, Copy)]
pub struct Copied {
    pub into: u32,
    pub source: u32,
}

fn copy_in(instr: &Instr) -> Option<Copied>
    ensures { IfSome result (λ c. instr_of instr.now ≡ Do (Set c.into (Register c.source))) }
{
    match instr {
        Instr::Set { into, value } => match *value {
            Operand::Register(source) => Some(Copied {
                into: *into,
                source,
            }),
            Operand::Constant(_) => None,
        },
        _ => None,
    }
}

/// The copy at a place of the code, if one stands there.
pub fn copy_at(code: &[Instr], at: usize) -> Option<Copied>
    ensures { IfSome result (λ c. slice_get (map instr_of code.now) at ≡ Some (Do (Set c.into (Register c.source)))) }
{
    match code.get(at) {
        None => None,
        Some(instr) => copy_in(instr),
    }
}
