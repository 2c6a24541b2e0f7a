// What is known as a block goes on.
ghost use Rattle.std.specs.Prelude.{◌≡◌, true, IfOk};
ghost use Rattle.pass_dataflow_facts.specs.Facts.{all_true, is_true};
ghost use Rattle.pass_dataflow_transfer.specs.Learning.{LearnsStep, LearnsValue, Sure};

use super::changing::{forget, nothing_of, set_fact, step, written};
use pass_dataflow_facts::{Fact, Form, Origin};
use std::alloc::Global;
use wcc_base::Memory;

/// The facts with which a block began, as they are now, and the newest ones that were learned.
#[derive(Drop)]
pub struct Known {
    pub facts: Vec<Fact>,
    /// How many the block began with.
    own: usize,
    /// Where the next one goes, in place of the oldest one.
    next: usize,
}

/// The place of the next fact: behind the last one there are again the oldest.
fn place(own: usize, next: usize, places: usize) -> usize {
    if next < places { next } else { own }
}

impl Known {
    /// These facts are known, and so many may be learned at once.
    pub fn new(alloc: Global, facts: &[Fact], more: usize) -> Result<Known, Memory>
        ensures { IfOk result (λ k. Sure facts.now (λ s. all_true k.facts.items s ≡ true)) }
    {
        let mut all = Vec::from_slice(alloc, facts)?;
        let own = all.len();
        for _ in 0..more {
            all.push(nothing_of(0))?;
        }
        Ok(Known {
            facts: all,
            own,
            next: own,
        })
    }

    /// One fact more, in place of the oldest one.
    fn learn(&mut self, fact: Fact)
        ensures { Sure self.old.facts.items (λ s. is_true s fact ≡ true → all_true self.new.facts.items s ≡ true) }
    {
        let at = place(self.own, self.next, self.facts.len());
        set_fact(&mut self.facts, at, fact);
        self.next = at.wrapping_add(1);
    }

    /// In a function of so many registers one was written, with a value of this origin, and with this number if that is known.
    pub fn write(&mut self, size: u32, register: u32, origin: Origin, form: Option<Form>)
        ensures { LearnsValue size register origin form self.old.facts.items self.new.facts.items }
    {
        forget(&mut self.facts, register);
        if register < size {
            self.learn(written(register, origin, form));
        }
    }

    /// A register was stepped.
    pub fn step(&mut self, register: u32, by: u32)
        ensures { LearnsStep register by self.old.facts.items self.new.facts.items }
    {
        step(&mut self.facts, register, by);
    }
}
