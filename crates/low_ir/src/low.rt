// Functions of basic blocks.
ghost use Rattle.low_ir.specs.Formed.{IsLow};
ghost use Rattle.low_ir.specs.View.{program};

use super::instruction::{End, Instr};
use super::object::Object;

/// Instructions that run in a row.
#[derive(Drop)]
pub struct Block {
    /// The mark that counts how often the block begins.
    pub mark: Option<u32>,
    pub code: Vec<Instr>,
    pub end: End,
}

/// A loop: the blocks from its header to its latch, which alone jumps back. It starts its header from
/// `min` to `max` times for each entry.
#[derive(Clone, Copy)]
pub struct Loop {
    pub id: u32,
    pub min: u32,
    pub max: u32,
    pub header: u32,
    pub latch: u32,
}

/// A function. It begins with its first block, and the registers of its parameters hold what it is
/// called with; the others are unwritten at each call.
#[derive(Drop)]
pub struct Function {
    pub parameters: Vec<u32>,
    /// How many registers it has.
    pub registers: u32,
    pub loops: Vec<Loop>,
    pub blocks: Vec<Block>,
}

/// A program in the low form. A function calls those of lower numbers. The mark of a function's first
/// block is its opening mark, which stands nowhere else.
#[derive(Drop)]
pub struct Low {
    pub functions: Vec<Function>,
    /// By claim: the objects that an access with this claim may touch.
    pub claims: Vec<Vec<u32>>,
    pub objects: Vec<Object>,
    /// The number of the function that is run.
    pub main: u32,
    /// Marks have numbers below this one.
    pub marks: u32,
    ghost is_low: { IsLow (program functions.items claims.items objects.items main marks) },
}
