// What is read of a function before its registers are walked for.
use super::accesses::Access;
use super::sources::Source;
use low_ir::Function;

/// A function; by register, its reads and writes; and by block, the blocks that lead to it.
#[derive(Clone, Copy)]
pub struct Reading<'a> {
    pub function: &'a Function,
    pub accesses: &'a [Vec<Access>],
    pub sources: &'a [Vec<Source>],
}
