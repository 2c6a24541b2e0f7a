// Instructions that keep the field ranges of their rows.
ghost use Rattle.std.specs.Prelude.{◌≡◌, ◌<◌, ◌≤ℤ◌, ◌%◌, ◌^◌, pos, negsuc, IsTrue};
ghost use Rattle.rv_core.specs.declared.row.Format.{Format};
ghost use Rattle.rv_core.specs.Rows.{row_of};
ghost use Rattle.rv_core.specs.Arithmetic.{word};
ghost use Rattle.rv_core.specs.Instructions.{addi, lui, ecall, instruction, in_row};

use crate::Op;
use std::marker::Model;

/// An instruction. Its fields are in the ranges of its row, and those that the row doesn't have
/// are 0. The immediate of a branch or jump is its offset in bytes, that of LUI and AUIPC the
/// 32-bit number whose upper 20 bits they give, and that of a shift its amount.
#[derive(Clone, Copy)]
pub struct Instr {
    op: Op,
    rd: u8,
    rs1: u8,
    rs2: u8,
    imm: i32,
}

impl Model for Instr {
    ghost use Rattle.std.specs.Prelude.{IsTrue};
    ghost use Rattle.rv_core.specs.Instructions.{Instruction, instruction, in_row};

    ghost Value = { Instruction };

    ghost view = { λ i. instruction i.op i.rd i.rs1 i.rs2 i.imm };

    ghost invariant = { λ i. IsTrue (in_row (instruction i.op i.rd i.rs1 i.rs2 i.imm)) };

    ghost inverse = { λ v. record { op = v.op; rd = v.rd; rs1 = v.rs1; rs2 = v.rs2; imm = v.imm } };
}

impl Instr {
    /// The instruction of these fields.
    pub fn new(op: Op, rd: u8, rs1: u8, rs2: u8, imm: i32) -> Self
        requires { IsTrue (in_row (instruction op rd rs1 rs2 imm)) }
        ensures { result ≡ instruction op rd rs1 rs2 imm }
    {
        Instr {
            op,
            rd,
            rs1,
            rs2,
            imm,
        }
    }

    /// An instruction of format R.
    pub fn register(op: Op, rd: u8, rs1: u8, rs2: u8) -> Self
        requires format { (row_of op).format ≡ Format.R }
        requires rd { rd < 32 }
        requires rs1 { rs1 < 32 }
        requires rs2 { rs2 < 32 }
        ensures { result ≡ instruction op rd rs1 rs2 (pos 0) }
    {
        Instr::new(op, rd, rs1, rs2, 0)
    }

    /// An instruction of format I, other than a shift.
    pub fn immediate(op: Op, rd: u8, rs1: u8, imm: i32) -> Self
        requires format { (row_of op).format ≡ Format.I }
        requires rd { rd < 32 }
        requires rs1 { rs1 < 32 }
        requires low { negsuc 2047 ≤ℤ imm }
        requires high { imm ≤ℤ pos 2047 }
        ensures { result ≡ instruction op rd rs1 0 imm }
    {
        Instr::new(op, rd, rs1, 0, imm)
    }

    /// A shift by an amount.
    pub fn shift(op: Op, rd: u8, rs1: u8, amount: u8) -> Self
        requires format { (row_of op).format ≡ Format.Shift }
        requires rd { rd < 32 }
        requires rs1 { rs1 < 32 }
        requires amount { amount < 32 }
        ensures { result ≡ instruction op rd rs1 0 (pos amount) }
    {
        Instr::new(op, rd, rs1, 0, i32::from(amount))
    }

    /// A store of rs2 to rs1 plus the immediate.
    pub fn store(op: Op, rs1: u8, rs2: u8, imm: i32) -> Self
        requires format { (row_of op).format ≡ Format.S }
        requires rs1 { rs1 < 32 }
        requires rs2 { rs2 < 32 }
        requires low { negsuc 2047 ≤ℤ imm }
        requires high { imm ≤ℤ pos 2047 }
        ensures { result ≡ instruction op 0 rs1 rs2 imm }
    {
        Instr::new(op, 0, rs1, rs2, imm)
    }

    /// A branch by an offset in bytes.
    pub fn branch(op: Op, rs1: u8, rs2: u8, offset: i32) -> Self
        requires format { (row_of op).format ≡ Format.B }
        requires rs1 { rs1 < 32 }
        requires rs2 { rs2 < 32 }
        requires low { negsuc 4095 ≤ℤ offset }
        requires high { offset ≤ℤ pos 4095 }
        requires even { word offset % 2 ≡ 0 }
        ensures { result ≡ instruction op 0 rs1 rs2 offset }
    {
        Instr::new(op, 0, rs1, rs2, offset)
    }

    /// LUI or AUIPC with a number whose low 12 bits are 0.
    pub fn upper(op: Op, rd: u8, imm: i32) -> Self
        requires format { (row_of op).format ≡ Format.U }
        requires rd { rd < 32 }
        requires upper { word imm % 2 ^ 12 ≡ 0 }
        ensures { result ≡ instruction op rd 0 0 imm }
    {
        Instr::new(op, rd, 0, 0, imm)
    }

    /// JAL by an offset in bytes.
    pub fn jump(rd: u8, offset: i32) -> Self
        requires rd { rd < 32 }
        requires low { negsuc 1048575 ≤ℤ offset }
        requires high { offset ≤ℤ pos 1048575 }
        requires even { word offset % 2 ≡ 0 }
        ensures { result ≡ instruction Op.Jal rd 0 0 offset }
    {
        Instr::new(Op::Jal, rd, 0, 0, offset)
    }

    /// `rd = rs1 + imm`.
    pub fn addi(rd: u8, rs1: u8, imm: i32) -> Self
        requires rd { rd < 32 }
        requires rs1 { rs1 < 32 }
        requires low { negsuc 2047 ≤ℤ imm }
        requires high { imm ≤ℤ pos 2047 }
        ensures { result ≡ addi rd rs1 imm }
    {
        Instr::immediate(Op::Addi, rd, rs1, imm)
    }

    /// `rd = imm`, a number whose low 12 bits are 0.
    pub fn lui(rd: u8, imm: i32) -> Self
        requires rd { rd < 32 }
        requires upper { word imm % 2 ^ 12 ≡ 0 }
        ensures { result ≡ lui rd imm }
    {
        Instr::upper(Op::Lui, rd, imm)
    }

    /// The call of the environment that x17 names.
    pub fn ecall() -> Self
        ensures { result ≡ ecall }
    {
        Instr::new(Op::Ecall, 0, 0, 0, 0)
    }

    /// A law: the fields are in the ranges of the instruction's row.
    pub fn fits_row(&self)
        ensures { IsTrue (in_row self.now) }
    {
        let _ = &self.op;
    }

    pub fn op(&self) -> Op
        ensures { result ≡ self.now.op }
    {
        self.op
    }

    pub fn rd(&self) -> u8
        ensures value { result ≡ self.now.rd }
        ensures small { result < 32 }
    {
        self.rd
    }

    pub fn rs1(&self) -> u8
        ensures value { result ≡ self.now.rs1 }
        ensures small { result < 32 }
    {
        self.rs1
    }

    pub fn rs2(&self) -> u8
        ensures value { result ≡ self.now.rs2 }
        ensures small { result < 32 }
    {
        self.rs2
    }

    pub fn imm(&self) -> i32
        ensures { result ≡ self.now.imm }
    {
        self.imm
    }
}
