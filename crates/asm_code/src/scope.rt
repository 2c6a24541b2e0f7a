// What the code of a function takes from its program.
use asm_data::{Data, Frame};
use low_ir::{LowReg, Place};

/// A function of a program, by its number, and what its code takes from elsewhere.
#[derive(Clone, Copy)]
pub struct Scope<'a> {
    pub code: &'a LowReg,
    pub memory: &'a Data,
    pub number: usize,
    pub frame: &'a Frame,
    /// The places of its registers.
    pub places: &'a [Place],
    /// By place of its code, the registers that a call there keeps, as bits.
    pub kept: &'a [u32],
    /// It calls no function.
    pub leaf: bool,
    /// Each return leaves it by itself; else one block behind the others does.
    pub at_once: bool,
    pub blocks: u32,
}
