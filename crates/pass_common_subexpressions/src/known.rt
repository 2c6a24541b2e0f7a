// What is known as a block goes on.
ghost use Rattle.std.specs.Prelude.{◌≡◌, Some, None, map, replicate, slice_set, IfOk, IfSome};
ghost use Rattle.low_ir.specs.View.{claim_of, instr_of};
ghost use Rattle.pass_common_subexpressions_law.specs.Facts.{Keeps, Knows, KnowsNothing, Learns};
ghost use Rattle.pass_common_subexpressions.specs.Making.{Answers, AreKept, IsAdded, fact_of, known_of, source_of};

use super::facts::{Fact, Source, same_source, stays, taught};
use low_ir::instruction::Instr;
use std::alloc::Global;
use std::marker::Model;
use wcc_base::Memory;

/// How many facts are known at once.
const FACTS: usize = 32;

/// The newest facts.
#[derive(Drop)]
pub struct Known {
    facts: Vec<Option<Fact>>,
    /// Where the next one goes, in place of the oldest one.
    next: usize,
}

impl Model for Known {
    ghost use Rattle.pass_common_subexpressions_law.specs.Facts.{Known};
    ghost use Rattle.pass_common_subexpressions.specs.Making.{known_of};

    ghost Value = { Known };

    ghost view = { λ k. known_of k.facts.items };
}

/// A fact behind an instruction, where it is as true as before.
fn left(claims: &[Vec<u32>], instr: &Instr, slot: Option<Fact>) -> Option<Fact>
    ensures { IfSome result (λ f. (slot ≡ Some f) × Keeps (map claim_of claims.now) (instr_of instr.now) (fact_of f)) }
{
    match slot {
        None => None,
        Some(fact) => {
            if stays(claims, instr, fact) {
                Some(fact)
            } else {
                None
            }
        }
    }
}

/// The register of a fact, if that is of this source.
fn answer(slot: Option<Fact>, source: Source) -> Option<u32>
    ensures { IfSome result (Answers slot (source_of source)) }
{
    match slot {
        None => None,
        Some(fact) => {
            if same_source(fact.source, source) {
                Some(fact.register)
            } else {
                None
            }
        }
    }
}

/// The place of the next fact: behind the last one there are again the oldest.
fn place(next: usize, places: usize) -> usize {
    if next < places { next } else { 0 }
}

fn set_fact(facts: &mut Vec<Option<Fact>>, at: usize, new: Option<Fact>)
    ensures { facts.new.items ≡ slice_set facts.old.items at new }
{
    if let Some(fact) = facts.get_mut(at) {
        *fact = new;
    }
}

/// Forgets what an instruction may change.
fn forget(facts: &mut Vec<Option<Fact>>, claims: &[Vec<u32>], instr: &Instr)
    ensures { AreKept (map claim_of claims.now) (instr_of instr.now) (known_of facts.old.items) (known_of facts.new.items) }
{
    for at in 0..facts.len() {
        let slot = left(claims, instr, facts[at]);
        set_fact(facts, at, slot);
    }
}

/// Places for facts, without any.
fn no_facts(alloc: Global) -> Result<Vec<Option<Fact>>, Memory>
    ensures { IfOk result (λ facts. facts.items ≡ replicate 32 None) }
{
    Ok(vec![in alloc; None; FACTS]?)
}

impl Known {
    /// Nothing is known.
    pub fn new(alloc: Global) -> Result<Known, Memory>
        ensures { IfOk result (λ k. KnowsNothing k) }
    {
        let facts = no_facts(alloc)?;
        Ok(Known { facts, next: 0 })
    }

    /// The register that holds what a source would give, if one is known.
    pub fn find(&self, source: Source) -> Option<u32>
        ensures { IfSome result (λ r. Knows self.now (record { source = source_of source; register = r })) }
    {
        for at in 0..self.facts.len() {
            if let Some(register) = answer(self.facts[at], source) {
                return Some(register);
            }
        }
        None
    }

    /// The place behind a fact, if it is known at a place or behind it.
    pub fn behind(&self, from: usize, fact: Fact) -> Option<usize>
        ensures { IfSome result (λ _. Knows self.now (fact_of fact)) }
    {
        for at in from..self.facts.len() {
            if let Some(register) = answer(self.facts[at], fact.source) {
                if register == fact.register {
                    return Some(at + 1);
                }
            }
        }
        None
    }

    /// The facts that are known.
    pub fn list(&self, alloc: Global) -> Result<Vec<Fact>, Memory> {
        let mut list = Vec::new(alloc);
        for at in 0..self.facts.len() {
            if let Some(fact) = self.facts[at] {
                list.push(fact)?;
            }
        }
        Ok(list)
    }

    /// One fact more, in place of the oldest one.
    pub fn add(&mut self, fact: Fact)
        ensures { IsAdded (fact_of fact) self.old self.new }
    {
        let at = place(self.next, self.facts.len());
        set_fact(&mut self.facts, at, Some(fact));
        self.next = at.wrapping_add(1);
    }

    /// What is known behind an instruction.
    pub fn pass(&mut self, claims: &[Vec<u32>], instr: &Instr)
        ensures { Learns (map claim_of claims.now) self.old (instr_of instr.now) self.new }
    {
        forget(&mut self.facts, claims, instr);
        if let Some(fact) = taught(instr) {
            self.add(fact);
        }
    }
}
