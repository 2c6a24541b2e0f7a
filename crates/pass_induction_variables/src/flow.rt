// What registers hold at the beginnings of the blocks of a loop: an optimistic analysis of linear forms.
use super::lives::Lives;
use super::parts::Parts;
use low_ir::Loop;
use pass_dataflow_facts::Form;
use pass_strength_sketches::acts::nexts;
use pass_strength_sketches::forms::is_same;
use pass_strength_sketches::sketch::{Draft, end_of, lines_of};
use pass_strength_sketches::tables::{flag_at, list_at, set_flag};
use pass_strength_sketches::words::Words;
use std::alloc::Global;
use wcc_base::Memory;

/// How often a loop is gone through at most.
const SWEEPS: u32 = 12;

/// How many forms are kept at most.
const FORMS: usize = 400_000;

#[derive(Drop)]
pub struct Flow {
    /// The number of the header.
    pub first: usize,
    /// By block from the header on, whether a way leads to it.
    seen: Vec<bool>,
    /// By block and rank.
    forms: Vec<Vec<Option<Form>>>,
    /// By rank, the register.
    crossing: Vec<u32>,
}

/// Registers that are no induction variables and live from one block to another.
fn crossing_in(
    alloc: Global,
    lives: &Lives,
    parts: &mut Parts,
    each: Loop,
) -> Result<Vec<u32>, Memory> {
    let mut crossing = Vec::new(alloc);
    for block in each.header..=each.latch {
        for register in list_at(&lives.registers, block as usize) {
            if block != each.header
                && parts.is_other(*register)
                && parts.rank(*register).is_none()
            {
                parts.set_rank(*register, crossing.len());
                crossing.push(*register)?;
            }
        }
    }
    Ok(crossing)
}

fn met(old: Option<Form>, new: Option<Form>) -> Option<Form> {
    match old {
        None => None,
        Some(a) => match new {
            None => None,
            Some(b) => { if is_same(a, b) { Some(a) } else { None } }
        },
    }
}

/// Keeps what is the same by both ways, and says whether that is less.
fn meet(old: &mut Vec<Option<Form>>, new: &[Option<Form>]) -> bool {
    let mut changed = false;
    for (at, form) in new.iter().enumerate() {
        if let Some(slot) = old.get_mut(at) {
            let both = met(*slot, *form);
            if slot.is_some() && both.is_none() {
                changed = true;
            }
            *slot = both;
        }
    }
    changed
}

/// What is kept behind a block.
fn behind_block(
    alloc: Global,
    parts: &Parts,
    begun: &[Option<Form>],
    crossing: &[u32],
) -> Result<Vec<Option<Form>>, Memory> {
    let mut forms = Vec::new(alloc);
    for register in crossing {
        let form = match parts.other(begun, *register) {
            None => None,
            Some(form) => Some(parts.now(form)),
        };
        forms.push(form)?;
    }
    Ok(forms)
}

impl Flow {
    fn new(alloc: Global, each: Loop, crossing: Vec<u32>) -> Result<Flow, Memory> {
        let mut forms = Vec::new(alloc);
        let mut seen = Vec::new(alloc);
        for block in each.header..=each.latch {
            forms.push(vec![in alloc; None; crossing.len()]?)?;
            seen.push(block == each.header)?;
        }
        Ok(Flow {
            first: each.header as usize,
            seen,
            forms,
            crossing,
        })
    }

    /// The number of its blocks.
    pub fn blocks(&self) -> usize {
        self.seen.len()
    }

    /// What is known as a block begins.
    pub fn begun(&self, row: usize) -> &[Option<Form>] {
        match self.forms.get(row) {
            None => &[],
            Some(forms) => forms.as_slice(),
        }
    }

    pub fn is_seen(&self, row: usize) -> bool {
        flag_at(&self.seen, row)
    }

    /// A way leads to a block with these forms.
    fn lead_to(&mut self, row: usize, new: &[Option<Form>]) -> bool {
        let first = !self.is_seen(row);
        set_flag(&mut self.seen, row, true);
        match self.forms.get_mut(row) {
            None => false,
            Some(old) => {
                if first {
                    for (at, form) in new.iter().enumerate() {
                        if let Some(slot) = old.get_mut(at) {
                            *slot = *form;
                        }
                    }
                    true
                } else {
                    meet(old, new)
                }
            }
        }
    }

    /// A block leads on.
    fn lead_on(&mut self, block: usize, draft: &[Draft], forms: &[Option<Form>]) -> bool {
        let mut changed = false;
        for next in nexts(end_of(draft, block)) {
            if let Some(next) = next {
                let row = (next as usize).wrapping_sub(self.first);
                if row > 0 && row < self.blocks() {
                    if self.lead_to(row, forms) {
                        changed = true;
                    }
                }
            }
        }
        changed
    }

    fn pass_block(
        &mut self,
        alloc: Global,
        drafts: &[Draft],
        words: &Words,
        parts: &mut Parts,
        row: usize,
    ) -> Result<bool, Memory> {
        let block = self.first.wrapping_add(row);
        parts.begin();
        for line in lines_of(drafts, block) {
            parts.pass(words, self.begun(row), line.act);
        }
        let forms = behind_block(alloc, parts, self.begun(row), &self.crossing)?;
        Ok(self.lead_on(block, drafts, &forms))
    }

    fn sweep(
        &mut self,
        alloc: Global,
        drafts: &[Draft],
        words: &Words,
        parts: &mut Parts,
    ) -> Result<bool, Memory> {
        let mut changed = false;
        for row in 0..self.blocks() {
            if self.is_seen(row) {
                if self.pass_block(alloc, drafts, words, parts, row)? {
                    changed = true;
                }
            }
        }
        Ok(changed)
    }
}

/// What is known in a loop whose registers have their parts; nothing, where that isn't found in time.
pub fn flow_of(
    alloc: Global,
    drafts: &[Draft],
    words: &Words,
    parts: &mut Parts,
    lives: &Lives,
    each: Loop,
) -> Result<Option<Flow>, Memory> {
    let crossing = crossing_in(alloc, lives, parts, each)?;
    let blocks = each.latch.saturating_sub(each.header) as usize;
    if blocks.saturating_mul(crossing.len()) > FORMS {
        return Ok(None);
    }
    let mut flow = Flow::new(alloc, each, crossing)?;
    for _ in 0..SWEEPS {
        if !flow.sweep(alloc, drafts, words, parts)? {
            return Ok(Some(flow));
        }
    }
    Ok(None)
}
