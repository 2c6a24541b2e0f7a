// The instruction table.
ghost use Rattle.std.specs.Prelude.{◌≡◌, ◌<◌};
ghost use Rattle.rv_core.specs.declared.row.Class.{Class};
ghost use Rattle.rv_core.specs.declared.row.Effect.{Effect};
ghost use Rattle.rv_core.specs.declared.row.Format.{Format};
ghost use Rattle.rv_core.specs.Rows.{row, row_of};

use crate::Op;
use crate::row::{Alu, Class, Condition, Effect, Format, Row, Width};

impl Row {
    /// A row of the table.
    fn new(format: Format, opcode: u8, funct3: u8, funct7: u8, class: Class, effect: Effect) -> Self
        ensures { result ≡ row format opcode funct3 funct7 class effect }
    {
        Row {
            format,
            opcode,
            funct3,
            funct7,
            class,
            effect,
        }
    }

    fn branch(funct3: u8, condition: Condition) -> Self
        ensures { result ≡ row Format.B 0x63 funct3 0 Class.Branch (Effect.BranchIf condition) }
    {
        let effect = Effect::BranchIf(condition);
        Row::new(Format::B, 0x63, funct3, 0, Class::Branch, effect)
    }

    fn load(funct3: u8, width: Width, signed: bool) -> Self
        ensures { result ≡ row Format.I 0x03 funct3 0 Class.Load (Effect.Read width signed) }
    {
        let effect = Effect::Read { width, signed };
        Row::new(Format::I, 0x03, funct3, 0, Class::Load, effect)
    }

    fn store(funct3: u8, width: Width) -> Self
        ensures { result ≡ row Format.S 0x23 funct3 0 Class.Store (Effect.Write width) }
    {
        let effect = Effect::Write(width);
        Row::new(Format::S, 0x23, funct3, 0, Class::Store, effect)
    }

    fn immediate(funct3: u8, function: Alu) -> Self
        ensures { result ≡ row Format.I 0x13 funct3 0 Class.Plain (Effect.WithImmediate function) }
    {
        let effect = Effect::WithImmediate(function);
        Row::new(Format::I, 0x13, funct3, 0, Class::Plain, effect)
    }

    fn shift(funct3: u8, funct7: u8, function: Alu) -> Self
        ensures { result ≡ row Format.Shift 0x13 funct3 funct7 Class.Plain (Effect.WithImmediate function) }
    {
        let effect = Effect::WithImmediate(function);
        Row::new(Format::Shift, 0x13, funct3, funct7, Class::Plain, effect)
    }

    fn register(funct3: u8, funct7: u8, class: Class, function: Alu) -> Self
        ensures { result ≡ row Format.R 0x33 funct3 funct7 class (Effect.WithRegister function) }
    {
        let effect = Effect::WithRegister(function);
        Row::new(Format::R, 0x33, funct3, funct7, class, effect)
    }
}

impl Op {
    /// The instructions in the order of the table.
    pub const ALL: [Op; 46] = [
        Op::Lui,
        Op::Auipc,
        Op::Jal,
        Op::Jalr,
        Op::Beq,
        Op::Bne,
        Op::Blt,
        Op::Bge,
        Op::Bltu,
        Op::Bgeu,
        Op::Lb,
        Op::Lh,
        Op::Lw,
        Op::Lbu,
        Op::Lhu,
        Op::Sb,
        Op::Sh,
        Op::Sw,
        Op::Addi,
        Op::Slti,
        Op::Sltiu,
        Op::Xori,
        Op::Ori,
        Op::Andi,
        Op::Slli,
        Op::Srli,
        Op::Srai,
        Op::Add,
        Op::Sub,
        Op::Sll,
        Op::Slt,
        Op::Sltu,
        Op::Xor,
        Op::Srl,
        Op::Sra,
        Op::Or,
        Op::And,
        Op::Mul,
        Op::Mulh,
        Op::Mulhsu,
        Op::Mulhu,
        Op::Div,
        Op::Divu,
        Op::Rem,
        Op::Remu,
        Op::Ecall,
    ];

    /// The row of the instruction: where its fields stand, what it costs and what it does.
    pub fn row(self) -> Row
        ensures value { result ≡ row_of self }
        ensures opcode { result.opcode < 128 }
        ensures funct3 { result.funct3 < 8 }
        ensures funct7 { result.funct7 < 128 }
    {
        match self {
            Op::Lui => Row::new(Format::U, 0x37, 0, 0, Class::Plain, Effect::SetUpper),
            Op::Auipc => Row::new(Format::U, 0x17, 0, 0, Class::Plain, Effect::AddUpper),
            Op::Jal => Row::new(Format::J, 0x6f, 0, 0, Class::Jump, Effect::Link),
            Op::Jalr => Row::new(Format::I, 0x67, 0, 0, Class::Jump, Effect::LinkRegister),
            Op::Beq => Row::branch(0, Condition::Equal),
            Op::Bne => Row::branch(1, Condition::NotEqual),
            Op::Blt => Row::branch(4, Condition::Less),
            Op::Bge => Row::branch(5, Condition::AtLeast),
            Op::Bltu => Row::branch(6, Condition::LessUnsigned),
            Op::Bgeu => Row::branch(7, Condition::AtLeastUnsigned),
            Op::Lb => Row::load(0, Width::Byte, true),
            Op::Lh => Row::load(1, Width::Half, true),
            Op::Lw => Row::load(2, Width::Word, true),
            Op::Lbu => Row::load(4, Width::Byte, false),
            Op::Lhu => Row::load(5, Width::Half, false),
            Op::Sb => Row::store(0, Width::Byte),
            Op::Sh => Row::store(1, Width::Half),
            Op::Sw => Row::store(2, Width::Word),
            Op::Addi => Row::immediate(0, Alu::Sum),
            Op::Slti => Row::immediate(2, Alu::IsLess),
            Op::Sltiu => Row::immediate(3, Alu::IsLessUnsigned),
            Op::Xori => Row::immediate(4, Alu::BitXor),
            Op::Ori => Row::immediate(6, Alu::BitOr),
            Op::Andi => Row::immediate(7, Alu::BitAnd),
            Op::Slli => Row::shift(1, 0x00, Alu::ShiftLeft),
            Op::Srli => Row::shift(5, 0x00, Alu::ShiftRight),
            Op::Srai => Row::shift(5, 0x20, Alu::ShiftRightSigned),
            Op::Add => Row::register(0, 0x00, Class::Plain, Alu::Sum),
            Op::Sub => Row::register(0, 0x20, Class::Plain, Alu::Difference),
            Op::Sll => Row::register(1, 0x00, Class::Plain, Alu::ShiftLeft),
            Op::Slt => Row::register(2, 0x00, Class::Plain, Alu::IsLess),
            Op::Sltu => Row::register(3, 0x00, Class::Plain, Alu::IsLessUnsigned),
            Op::Xor => Row::register(4, 0x00, Class::Plain, Alu::BitXor),
            Op::Srl => Row::register(5, 0x00, Class::Plain, Alu::ShiftRight),
            Op::Sra => Row::register(5, 0x20, Class::Plain, Alu::ShiftRightSigned),
            Op::Or => Row::register(6, 0x00, Class::Plain, Alu::BitOr),
            Op::And => Row::register(7, 0x00, Class::Plain, Alu::BitAnd),
            Op::Mul => Row::register(0, 0x01, Class::Multiply, Alu::Product),
            Op::Mulh => Row::register(1, 0x01, Class::Multiply, Alu::HighProduct),
            Op::Mulhsu => Row::register(2, 0x01, Class::Multiply, Alu::HighProductMixed),
            Op::Mulhu => Row::register(3, 0x01, Class::Multiply, Alu::HighProductUnsigned),
            Op::Div => Row::register(4, 0x01, Class::Divide, Alu::Quotient),
            Op::Divu => Row::register(5, 0x01, Class::Divide, Alu::QuotientUnsigned),
            Op::Rem => Row::register(6, 0x01, Class::Divide, Alu::Remainder),
            Op::Remu => Row::register(7, 0x01, Class::Divide, Alu::RemainderUnsigned),
            Op::Ecall => Row::new(
                Format::Fixed,
                0x73,
                0,
                0,
                Class::System,
                Effect::CallEnvironment,
            ),
        }
    }
}
