// The moves of an image.

use rv_core::Instr;

/// How the instruction at an address goes on.
#[derive(Clone, Copy)]
pub enum Way {
    /// To the next instruction.
    Next,
    /// To the next instruction or to a target.
    Branches(u32),
    /// To a target.
    Jumps(u32),
    /// To a target, and behind itself once the call has returned.
    Calls(u32),
    /// To nowhere: an exit, or a return, which the place behind its call stands for.
    Ends,
    /// In no way that a system knows.
    Strays,
}

/// One way in which the instruction at an address goes on: to `to`, and a call also arrives at
/// the address behind itself. A branch has two moves, 0 not taken and 1 taken.
#[derive(Clone, Copy)]
pub struct Move {
    pub at: u32,
    pub number: u8,
    pub instr: Instr,
    pub to: Option<u32>,
    pub behind: Option<u32>,
}
