// The activations of a run.
ghost use Rattle.std.specs.Prelude.{◌≡◌, [], ◌∷◌, None, IfOk, IfSome};
ghost use Rattle.low_ir.specs.Code.{Jump};
ghost use Rattle.register_eval.specs.Stands.{frame_of, stack_of, waiting_of};

use super::file::File;
use super::table::Table;
use low_ir::{End, Instr, Place};
use std::alloc::Global;
use wcc_base::Memory;

/// What is left of a block, and the masks from its next instruction on.
#[derive(Clone, Copy)]
pub struct Rest<'a> {
    pub code: &'a [Instr],
    pub masks: &'a [u32],
}

/// One activation: its function, where its registers stand, what is left of its block, and its places.
#[derive(Drop)]
pub struct Frame<'a> {
    pub function: u32,
    pub table: Table<'a>,
    pub rest: Rest<'a>,
    pub end: End,
    pub file: File,
}

impl<'a> Frame<'a> {
    /// Before the first block.
    pub fn new(function: u32, table: Table<'a>, file: File) -> Frame<'a>
        ensures { frame_of result ≡ record { func = function; code = []; end = Jump 0; store = file } }
    {
        Frame {
            function,
            table,
            rest: Rest {
                code: &[],
                masks: &[],
            },
            end: End::Jump { block: 0 },
            file,
        }
    }
}

/// An activation that waits for a call, and the place that gets the value, if it is wanted.
#[derive(Drop)]
pub struct Waiting<'a> {
    pub frame: Frame<'a>,
    pub into: Option<Place>,
}

/// The activations that wait, the one that was called last at the end.
#[derive(Drop)]
pub struct Stack<'a> {
    waiting: Vec<Waiting<'a>>,
}

impl<'a> Stack<'a> {
    pub fn new(alloc: Global) -> Stack<'a>
        ensures { stack_of result ≡ [] }
    {
        Stack {
            waiting: Vec::new(alloc),
        }
    }

    #[tactic(auto, using(crate::proofs::Stacks::reverse_map_push))]
    pub fn push(&mut self, waiting: Waiting<'a>) -> Result<(), Memory>
        ensures { IfOk result (λ _. stack_of self.new ≡ waiting_of waiting.entry ∷ stack_of self.old) }
    {
        self.waiting.push(waiting)?;
        Ok(())
    }

    #[tactic(auto, using(crate::proofs::Stacks::reverse_map_push))]
    pub fn pop(&mut self) -> Option<Waiting<'a>>
        ensures none { result ≡ None → stack_of self.old ≡ [] }
        ensures some { IfSome result (λ w. stack_of self.old ≡ waiting_of w ∷ stack_of self.new) }
    {
        self.waiting.pop()
    }
}
