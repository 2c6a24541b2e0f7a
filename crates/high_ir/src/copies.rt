// What became of the marks and loops of one program in the next.
use super::high::High;

/// A mark of the old program, and the marks of the new one whose counts add up to its count.
#[derive(Drop)]
pub struct MarkCopies {
    pub old: u32,
    pub new: Vec<u32>,
}

/// A loop of the new program; its body is `factor` starts of the old one.
#[derive(Clone, Copy)]
pub struct LoopCopy {
    pub id: u32,
    pub factor: u32,
}

/// A loop of the old program, and those of the new one that came of it.
#[derive(Drop)]
pub struct LoopCopies {
    pub old: u32,
    pub new: Vec<LoopCopy>,
}

/// A mark of the new program that no good run passes: it stands behind all starts that a loop of the
/// old program can make, whose most are fewer than the factor.
#[derive(Clone, Copy)]
pub struct NeverMark {
    pub mark: u32,
    pub old: u32,
    pub factor: u32,
}

/// What became of each mark and each loop.
#[derive(Drop)]
pub struct Copies {
    pub marks: Vec<MarkCopies>,
    pub loops: Vec<LoopCopies>,
    pub nevers: Vec<NeverMark>,
}

/// A program, and what became in it of the marks and loops of the one that it was made of.
#[derive(Drop)]
pub struct Carried {
    pub program: High,
    pub copies: Copies,
}
