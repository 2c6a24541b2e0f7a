// Words as instructions.
ghost use Rattle.std.specs.Prelude.{◌≡◌, IfSome};
ghost use Rattle.rv_core.specs.Rows.{row_of};
ghost use Rattle.rv_core.specs.Words.{AreFields, unpack, matches_by, matches, instruction_by, first_match, word_of, decode_of};

use crate::row::{Format, Row};
use crate::signs::extend;
use crate::{Fields, Instr, Op};

/// The fields of a word.
#[tactic(auto, unfolding(crate::specs::Words::unpack))]
fn unpack(word: u32) -> Fields
    ensures value { result ≡ unpack word }
    ensures small { AreFields result }
{
    Fields {
        opcode: word % 0x80,
        rd: word / 0x80 % 32,
        funct3: word / 0x1000 % 8,
        rs1: word / 0x8000 % 32,
        rs2: word / 0x10_0000 % 32,
        funct7: word / 0x200_0000,
    }
}

/// Whether the fields that the format fixes are those of the row.
fn matches_format(row: Row, fields: Fields) -> bool
    ensures { result ≡ matches_by row.format row fields }
{
    let funct3 = fields.funct3 == u32::from(row.funct3);
    let funct7 = fields.funct7 == u32::from(row.funct7);
    match row.format {
        Format::R | Format::Shift => funct3 && funct7,
        Format::I | Format::S | Format::B => funct3,
        Format::U | Format::J => true,
        Format::Fixed => {
            fields.rd == 0
                && (fields.funct3 == 0
                    && (fields.rs1 == 0 && (fields.rs2 == 0 && fields.funct7 == 0)))
        }
    }
}

/// Whether a row matches the fields.
fn matches(row: Row, fields: Fields) -> bool
    ensures { result ≡ matches row fields }
{
    fields.opcode == u32::from(row.opcode) && matches_format(row, fields)
}

/// The immediate of these fields in this format.
fn immediate(format: Format, fields: Fields) -> i32
    requires { AreFields fields }
    ensures { result ≡ (instruction_by format Op.Ecall fields).imm }
{
    let high = 32 * fields.funct7;
    let jump = 32 * (fields.funct7 % 64);
    match format {
        Format::R | Format::Fixed => 0,
        Format::I => extend(fields.rs2 + high, 12),
        Format::Shift => fields.rs2 as i32,
        Format::S => extend(fields.rd + high, 12),
        Format::B => {
            let low = 2 * (fields.rd / 2) + jump;
            extend(
                low + 0x800 * (fields.rd % 2) + 0x1000 * (fields.funct7 / 64),
                13,
            )
        }
        Format::U => {
            let low = 0x1000 * fields.funct3 + 0x8000 * fields.rs1;
            extend(
                low + 0x10_0000 * fields.rs2 + 0x200_0000 * fields.funct7,
                32,
            )
        }
        Format::J => {
            let low = 2 * (fields.rs2 / 2) + jump + 0x800 * (fields.rs2 % 2);
            let middle = 0x1000 * fields.funct3 + 0x8000 * fields.rs1;
            extend(low + middle + 0x10_0000 * (fields.funct7 / 64), 21)
        }
    }
}

/// The number of the register rd, 0 in a format without it.
fn destination(format: Format, fields: Fields) -> u8
    requires { AreFields fields }
    ensures { result ≡ (instruction_by format Op.Ecall fields).rd }
{
    match format {
        Format::S => 0,
        Format::B => 0,
        Format::Fixed => 0,
        _ => fields.rd as u8,
    }
}

/// The number of the register rs1, 0 in a format without it.
fn first_source(format: Format, fields: Fields) -> u8
    requires { AreFields fields }
    ensures { result ≡ (instruction_by format Op.Ecall fields).rs1 }
{
    match format {
        Format::U => 0,
        Format::J => 0,
        Format::Fixed => 0,
        _ => fields.rs1 as u8,
    }
}

/// The number of the register rs2, 0 in a format without it.
fn second_source(format: Format, fields: Fields) -> u8
    requires { AreFields fields }
    ensures { result ≡ (instruction_by format Op.Ecall fields).rs2 }
{
    match format {
        Format::R => fields.rs2 as u8,
        Format::S => fields.rs2 as u8,
        Format::B => fields.rs2 as u8,
        _ => 0,
    }
}

/// The instruction of these fields.
fn instruction(op: Op, fields: Fields) -> Instr
    requires { AreFields fields }
    ensures { result ≡ instruction_by (row_of op).format op fields }
{
    let format = op.row().format;
    let rd = destination(format, fields);
    let rs1 = first_source(format, fields);
    let rs2 = second_source(format, fields);
    let imm = immediate(format, fields);
    Instr::new(op, rd, rs1, rs2, imm)
}

/// The instruction of the first row that matches.
fn first_match(ops: &[Op], fields: Fields) -> Option<Instr>
    requires { AreFields fields }
    ensures { result ≡ first_match ops.now fields }
{
    for op in ops {
        if matches(op.row(), fields) {
            return Some(instruction(*op, fields));
        }
    }
    None
}

/// The instruction of a word, or `None` where no row of the table matches it.
pub fn decode(word: u32) -> Option<Instr>
    ensures value { result ≡ decode_of word }
    ensures back { IfSome result (λ i. word_of i ≡ word) }
{
    first_match(&Op::ALL, unpack(word))
}
