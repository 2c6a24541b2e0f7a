// What is proposed for a function.
use super::facts::Fact;
use low_ir::Instr;

/// What becomes of the next instruction of a block, or what comes before it.
#[derive(Drop)]
pub enum Edit {
    /// The next instruction stays as it is.
    Keep,
    /// The next one, a load, a store or a pointer, goes through this register, so many bytes behind where that points to.
    Through {
        register: u32,
        claim: u32,
        displacement: u32,
    },
    /// One more instruction comes here, which writes a spare register: an operation, a copy or a pointer.
    Insert(Instr),
}

/// What is proposed for a block. Behind the last edit all instructions stay as they are.
#[derive(Drop)]
pub struct Change {
    /// What is known as the block begins; of the first block nothing.
    pub facts: Vec<Fact>,
    pub edits: Vec<Edit>,
}

/// What is proposed for a function.
#[derive(Drop)]
pub struct Proposal {
    /// By register, whether the function nowhere names it: new instructions write these alone.
    pub spare: Vec<bool>,
    /// By block.
    pub changes: Vec<Change>,
}
