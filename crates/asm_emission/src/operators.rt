// The instructions of operators, loads and stores.
ghost use Rattle.std.specs.Prelude.{◌≡◌, ◌<◌, ◌^◌, pos, true};
ghost use Rattle.rv_core.specs.declared.row.Format.TheVariants.{R, I, Shift};
ghost use Rattle.rv_core.specs.Rows.{row_of};
ghost use Rattle.rv_core.specs.Instructions.{instruction, is_within};
ghost use Rattle.asm_program.specs.Emission.{register_op, load_op, store_op, with_number, with_amount, immediate_form, immediate_of};
ghost use Rattle.asm_emission.specs.View.{operand_of};
ghost use Rattle.asm_emission.specs.Fitting.{FormFits};

use super::numbers::{is_short, lower_of};
use super::placed::PlacedOperand;
use low_ir::object::Kind;
use rv_core::{Alu, Instr, Op};

fn register_op(operator: Alu) -> Op
    ensures value { result ≡ register_op operator }
    ensures format { (row_of result).format ≡ R }
{
    match operator {
        Alu::Sum => Op::Add,
        Alu::Difference => Op::Sub,
        Alu::ShiftLeft => Op::Sll,
        Alu::IsLess => Op::Slt,
        Alu::IsLessUnsigned => Op::Sltu,
        Alu::BitXor => Op::Xor,
        Alu::ShiftRight => Op::Srl,
        Alu::ShiftRightSigned => Op::Sra,
        Alu::BitOr => Op::Or,
        Alu::BitAnd => Op::And,
        Alu::Product => Op::Mul,
        Alu::HighProduct => Op::Mulh,
        Alu::HighProductMixed => Op::Mulhsu,
        Alu::HighProductUnsigned => Op::Mulhu,
        Alu::Quotient => Op::Div,
        Alu::QuotientUnsigned => Op::Divu,
        Alu::Remainder => Op::Rem,
        Alu::RemainderUnsigned => Op::Remu,
    }
}

fn load_op(kind: Kind) -> Op
    ensures { result ≡ load_op kind }
{
    match kind {
        Kind::Unsigned8 => Op::Lbu,
        Kind::Signed8 => Op::Lb,
        Kind::Unsigned16 => Op::Lhu,
        Kind::Signed16 => Op::Lh,
        Kind::Word => Op::Lw,
    }
}

fn store_op(kind: Kind) -> Op
    ensures { result ≡ store_op kind }
{
    match kind {
        Kind::Unsigned8 => Op::Sb,
        Kind::Signed8 => Op::Sb,
        Kind::Unsigned16 => Op::Sh,
        Kind::Signed16 => Op::Sh,
        Kind::Word => Op::Sw,
    }
}

/// `rd = left operator right`.
pub fn operate(operator: Alu, rd: u8, left: u8, right: u8) -> Instr
    requires rd { rd < 32 }
    requires left { left < 32 }
    requires right { right < 32 }
    ensures { result ≡ instruction (register_op operator) rd left right (pos 0) }
{
    Instr::register(register_op(operator), rd, left, right)
}

/// An element of this kind comes into a register.
pub fn read(kind: Kind, rd: u8, from: u8, offset: i32) -> Instr
    requires rd { rd < 32 }
    requires from { from < 32 }
    requires offset { is_within (2 ^ 11) offset ≡ true }
    ensures { result ≡ instruction (load_op kind) rd from 0 offset }
{
    Instr::new(load_op(kind), rd, from, 0, offset)
}

/// What is in a register becomes an element of this kind.
pub fn write(kind: Kind, to: u8, register: u8, offset: i32) -> Instr
    requires to { to < 32 }
    requires register { register < 32 }
    requires offset { is_within (2 ^ 11) offset ≡ true }
    ensures { result ≡ instruction (store_op kind) 0 to register offset }
{
    Instr::new(store_op(kind), 0, to, register, offset)
}

/// `rd = left operator constant`, by the form of the operator that has the constant.
pub fn operate_by(form: (Op, i32), rd: u8, left: u8) -> Instr
    requires form { FormFits (Some form) }
    requires rd { rd < 32 }
    requires left { left < 32 }
    ensures { result ≡ instruction form.0 rd left 0 form.1 }
{
    Instr::new(form.0, rd, left, 0, form.1)
}

fn with_number(op: Op, word: u32) -> Option<(Op, i32)>
    requires { (row_of op).format ≡ I }
    ensures value { result ≡ with_number op word }
    ensures fits { FormFits result }
{
    if is_short(word) {
        Some((op, lower_of(u64::from(word))))
    } else {
        None
    }
}

fn with_amount(op: Op, word: u32) -> Option<(Op, i32)>
    requires { (row_of op).format ≡ Shift }
    ensures value { result ≡ with_amount op word }
    ensures fits { FormFits result }
{
    if word < 32 {
        Some((op, word as i32))
    } else {
        None
    }
}

/// The form of an operator that has the constant in its instruction, and that constant.
fn immediate_form(operator: Alu, word: u32) -> Option<(Op, i32)>
    ensures value { result ≡ immediate_form operator word }
    ensures fits { FormFits result }
{
    match operator {
        Alu::Sum => with_number(Op::Addi, word),
        Alu::Difference => None,
        Alu::ShiftLeft => with_amount(Op::Slli, word),
        Alu::IsLess => with_number(Op::Slti, word),
        Alu::IsLessUnsigned => with_number(Op::Sltiu, word),
        Alu::BitXor => with_number(Op::Xori, word),
        Alu::ShiftRight => with_amount(Op::Srli, word),
        Alu::ShiftRightSigned => with_amount(Op::Srai, word),
        Alu::BitOr => with_number(Op::Ori, word),
        Alu::BitAnd => with_number(Op::Andi, word),
        Alu::Product => None,
        Alu::HighProduct => None,
        Alu::HighProductMixed => None,
        Alu::HighProductUnsigned => None,
        Alu::Quotient => None,
        Alu::QuotientUnsigned => None,
        Alu::Remainder => None,
        Alu::RemainderUnsigned => None,
    }
}

/// The same for a right operand; `None` where it is no constant, or one that doesn't fit.
pub fn immediate_of(operator: Alu, right: PlacedOperand) -> Option<(Op, i32)>
    ensures value { result ≡ immediate_of operator (operand_of right) }
    ensures fits { FormFits result }
{
    match right {
        PlacedOperand::At(_) => None,
        PlacedOperand::Constant(word) => immediate_form(operator, word),
    }
}
