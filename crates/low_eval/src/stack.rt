// The activations of a run.
ghost use Rattle.low_ir.specs.Code.{Jump};
ghost use Rattle.std.specs.Prelude.{◌≡◌, [], ◌∷◌, None, IfOk, IfSome};

use super::bank::Bank;
use low_ir::{End, Instr};
use std::alloc::Global;
use std::marker::Model;
use wcc_base::Memory;

/// One activation: its function, what is left of its block, and its registers.
#[derive(Drop)]
pub struct Frame<'a> {
    pub function: u32,
    pub code: &'a [Instr],
    pub end: End,
    pub bank: Bank,
}

impl<'a> Model for Frame<'a> {
    ghost use Rattle.std.specs.Prelude.{ℕ, map};
    ghost use Rattle.low_ir.specs.Code.{Note};
    ghost use Rattle.low_ir.specs.Runs.{Bank as Values, Frame as Activation};
    ghost use Rattle.low_ir.specs.View.{end_of, instr_of};

    ghost Value = { Activation ℕ Note Values };

    ghost view = { λ f. record { func = f.function; code = map instr_of f.code.now; end = end_of f.end; store = f.bank } };
}

impl<'a> Frame<'a> {
    /// Before the first block.
    pub fn new(function: u32, bank: Bank) -> Frame<'a>
        ensures { result ≡ record { func = function; code = []; end = Jump 0; store = bank } }
    {
        Frame {
            function,
            code: &[],
            end: End::Jump { block: 0 },
            bank,
        }
    }
}

/// An activation that waits for a call, and the register that gets the value, if it is wanted.
#[derive(Drop)]
pub struct Waiting<'a> {
    pub frame: Frame<'a>,
    pub into: Option<u32>,
}

impl<'a> Model for Waiting<'a> {
    ghost use Rattle.std.specs.Prelude.{ℕ};
    ghost use Rattle.low_ir.specs.Code.{Note};
    ghost use Rattle.low_ir.specs.Runs.{Bank as Values, Waiting as Waits};

    ghost Value = { Waits ℕ Note Values };

    ghost view = { λ w. record { frame = w.frame; into = w.into } };
}

/// The activations that wait, the one that was called last at the end.
#[derive(Drop)]
pub struct Stack<'a> {
    waiting: Vec<Waiting<'a>>,
}

impl<'a> Model for Stack<'a> {
    ghost use Rattle.std.specs.Prelude.{ℕ, List, reverse};
    ghost use Rattle.low_ir.specs.Code.{Note};
    ghost use Rattle.low_ir.specs.Runs.{Bank as Values, Waiting as Waits};

    ghost Value = { List (Waits ℕ Note Values) };

    ghost view = { λ s. reverse s.waiting.items };
}

impl<'a> Stack<'a> {
    pub fn new(alloc: Global) -> Stack<'a>
        ensures { result ≡ [] }
    {
        Stack {
            waiting: Vec::new(alloc),
        }
    }

    #[tactic(auto, using(crate::proofs::Stacks::reverse_push))]
    pub fn push(&mut self, waiting: Waiting<'a>) -> Result<(), Memory>
        ensures { IfOk result (λ _. self.new ≡ waiting.entry ∷ self.old) }
    {
        self.waiting.push(waiting)?;
        Ok(())
    }

    #[tactic(auto, using(crate::proofs::Stacks::reverse_push))]
    pub fn pop(&mut self) -> Option<Waiting<'a>>
        ensures none { result ≡ None → self.old ≡ [] }
        ensures some { IfSome result (λ w. self.old ≡ w ∷ self.new) }
    {
        self.waiting.pop()
    }
}
