// Instructions as words.
ghost use Rattle.std.specs.Prelude.{◌≡◌, ◌<◌, ◌+◌, ◌*◌, ◌/◌, ◌%◌, ◌^◌};
ghost use Rattle.std.specs.Int.{cast_unsigned};
ghost use Rattle.rv_core.specs.Words.{AreFields, pack, low_five, high_seven, low_jump, high_jump, fields_of, word_of};

use crate::row::Format;
use crate::{Fields, Instr};

/// The word of these fields.
#[tactic(auto, unfolding(crate::specs::Words::pack))]
fn pack(fields: Fields) -> u32
    requires { AreFields fields }
    ensures { result ≡ pack fields }
{
    let low = fields.opcode + 0x80 * fields.rd + 0x1000 * fields.funct3;
    low + 0x8000 * fields.rs1 + 0x10_0000 * fields.rs2 + 0x200_0000 * fields.funct7
}

/// Bits 4 to 0 of an I or S immediate.
fn low_five(bits: u32) -> u32
    ensures value { result ≡ low_five bits }
    ensures small { result < 2 ^ 5 }
{
    bits % 32
}

/// Bits 11 to 5 of an I or S immediate.
fn high_seven(bits: u32) -> u32
    ensures value { result ≡ high_seven bits }
    ensures small { result < 2 ^ 7 }
{
    bits / 32 % 128
}

/// Bits 4 to 1 of a B or J immediate, and bit 11 below them.
fn low_jump(bits: u32) -> u32
    ensures value { result ≡ low_jump bits }
    ensures small { result < 2 ^ 5 }
{
    bits / 0x800 % 2 + 2 * (bits / 2 % 16)
}

/// Bit 12 of a B immediate, and bits 10 to 5 below it.
fn high_branch(bits: u32) -> u32
    ensures value { result ≡ high_jump 12 bits }
    ensures small { result < 2 ^ 7 }
{
    bits / 32 % 64 + 64 * (bits / 0x1000 % 2)
}

/// Bit 20 of a J immediate, and bits 10 to 5 below it.
fn high_jump(bits: u32) -> u32
    ensures value { result ≡ high_jump 20 bits }
    ensures small { result < 2 ^ 7 }
{
    bits / 32 % 64 + 64 * (bits / 0x10_0000 % 2)
}

/// The fields of a U immediate's upper 20 bits in the places of funct3, rs1, rs2 and funct7.
fn upper(fields: Fields, bits: u32) -> Fields
    requires { AreFields fields }
    ensures value { result ≡ record fields { funct3 = bits / 2 ^ 12 % 2 ^ 3; rs1 = bits / 2 ^ 15 % 2 ^ 5; rs2 = bits / 2 ^ 20 % 2 ^ 5; funct7 = bits / 2 ^ 25 % 2 ^ 7 } }
    ensures small { AreFields result }
{
    Fields {
        funct3: bits / 0x1000 % 8,
        rs1: bits / 0x8000 % 32,
        rs2: bits / 0x10_0000 % 32,
        funct7: bits / 0x200_0000 % 128,
        ..fields
    }
}

/// The fields of an instruction's word.
fn fields(instr: &Instr) -> Fields
    ensures value { result ≡ fields_of instr.now }
    ensures small { AreFields result }
{
    let row = instr.op().row();
    let bits = instr.imm().cast_unsigned();
    let base = Fields {
        opcode: u32::from(row.opcode),
        rd: u32::from(instr.rd()),
        funct3: u32::from(row.funct3),
        rs1: u32::from(instr.rs1()),
        rs2: u32::from(instr.rs2()),
        funct7: u32::from(row.funct7),
    };
    match row.format {
        Format::R => base,
        Format::I => Fields {
            rs2: low_five(bits),
            funct7: high_seven(bits),
            ..base
        },
        Format::Shift => Fields {
            rs2: low_five(bits),
            ..base
        },
        Format::S => Fields {
            rd: low_five(bits),
            funct7: high_seven(bits),
            ..base
        },
        Format::B => Fields {
            rd: low_jump(bits),
            funct7: high_branch(bits),
            ..base
        },
        Format::U => upper(base, bits),
        Format::J => Fields {
            rs2: low_jump(bits),
            funct7: high_jump(bits),
            ..upper(base, bits)
        },
        Format::Fixed => Fields {
            rd: 0,
            funct3: 0,
            rs1: 0,
            rs2: 0,
            funct7: 0,
            ..base
        },
    }
}

/// The word of an instruction.
pub fn encode(instr: &Instr) -> u32
    ensures { result ≡ word_of instr.now }
{
    pack(fields(instr))
}
