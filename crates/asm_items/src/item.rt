// Items of code.

use rv_core::{Condition, Instr};

/// How a branch reaches its target.
#[derive(Clone, Copy)]
pub enum Form {
    /// By itself.
    Short,
    /// By a JAL behind the opposite branch.
    Inverted,
    /// By AUIPC and JALR behind the opposite branch.
    Far,
}

/// One or more instructions that belong together. Their targets are named: a block by its number in the
/// function, and a function by its number in the program.
#[derive(Clone, Copy)]
pub enum Item {
    /// An instruction that goes on behind itself.
    Single(Instr),
    /// A jump to a block: a JAL, or, where it is far, AUIPC and JALR.
    Jump {
        far: bool,
        block: u32,
    },
    /// A call of a function, in the same forms.
    Call {
        far: bool,
        function: u32,
    },
    /// A branch to a block where the condition holds of two registers.
    Branch {
        form: Form,
        condition: Condition,
        left: u8,
        right: u8,
        block: u32,
    },
    /// The return through x1.
    Return,
    /// The environment call that ends the program.
    Exit,
}
