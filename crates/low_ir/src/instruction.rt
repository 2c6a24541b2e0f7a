// Instructions over virtual registers, which are the numbers of a function's own.
use super::object::Kind;
use rv_core::{Alu, Condition};

/// What an instruction reads: a register or a word.
#[derive(Clone, Copy)]
pub enum Operand {
    Register(u32),
    Constant(u32),
}

/// Where an address begins: at an object of the program, or where a register points to, which is into
/// one of the objects of a claim.
#[derive(Clone, Copy)]
pub enum Base {
    Object(u32),
    Pointer { register: u32, claim: u32 },
}

/// An address: its base, and so many bytes behind it, those of a register included, modulo 2^32.
#[derive(Clone, Copy)]
pub struct Address {
    pub base: Base,
    pub offset: Option<u32>,
    pub displacement: u32,
}

/// An instruction.
#[derive(Drop)]
pub enum Instr {
    /// A copy of a register, or a constant.
    Set {
        into: u32,
        value: Operand,
    },
    Operate {
        operator: Alu,
        into: u32,
        left: Operand,
        right: Operand,
    },
    /// The address itself, for an array that is passed or for several accesses.
    Point {
        into: u32,
        address: Address,
    },
    /// An element of an array, widened to a word.
    Load {
        kind: Kind,
        into: u32,
        address: Address,
    },
    Store {
        kind: Kind,
        address: Address,
        value: Operand,
    },
    /// Writes a byte of the output.
    Put {
        value: Operand,
    },
    /// Reads a byte of the input, or -1 at its end.
    Get {
        into: u32,
    },
    /// Calls a function of a lower number.
    Call {
        function: u32,
        arguments: Vec<Operand>,
        into: Option<u32>,
    },
}

/// Where a block goes on to.
#[derive(Clone, Copy)]
pub enum End {
    Jump {
        block: u32,
    },
    Branch {
        condition: Condition,
        left: Operand,
        right: Operand,
        taken: u32,
        other: u32,
    },
    Return {
        value: Operand,
    },
}
