// What is planned for a function. Nothing is proved of it: where a plan doesn't fit, the program stays as it is.
use super::choosing::held_in;
use super::ends::told;
use super::facts::{Fact, copied, known, pass_all};
use super::ways::{goal, lead};
use low_ir::{Block, End, Function};
use std::alloc::Global;
use wcc_base::Memory;

/// A block that is left: its number among those, and what is known where it begins.
#[derive(Drop)]
pub struct Stay {
    pub name: u32,
    pub facts: Vec<Fact>,
}

/// What is planned.
#[derive(Drop)]
pub struct Planned {
    /// By register: the word that it has from the end of the first block on.
    pub held: Vec<Option<u32>>,
    /// By block, if it is left.
    pub stays: Vec<Option<Stay>>,
    /// By block: whether a loop begins or ends there.
    pub seen: Vec<bool>,
}

/// A sweep over a function.
#[derive(Drop)]
struct Sweep {
    stays: Vec<Option<Stay>>,
    /// How many blocks are left so far.
    left: u32,
}

fn see(seen: &mut Vec<bool>, block: u32) {
    if let Some(is) = seen.get_mut(block as usize) {
        *is = true;
    }
}

fn seen_in(alloc: Global, function: &Function) -> Result<Vec<bool>, Memory> {
    let mut seen = vec![in alloc; false; function.blocks.len()]?;
    for each in &function.loops {
        see(&mut seen, each.header);
        see(&mut seen, each.latch);
    }
    Ok(seen)
}

/// What is known on a way: facts, and what is told besides.
fn arriving(alloc: Global, facts: &[Fact], told: Option<Fact>) -> Result<Vec<Fact>, Memory> {
    let mut known = Vec::new(alloc);
    if let Some(fact) = told {
        if fact.word.is_some() {
            known.push(fact)?;
        }
    }
    for fact in facts {
        if fact.word.is_some() {
            known.push(*fact)?;
        }
    }
    Ok(known)
}

fn is_same(word: Option<u32>, other: Option<u32>) -> bool {
    match word {
        None => false,
        Some(word) => match other {
            None => false,
            Some(other) => word == other,
        },
    }
}

/// The facts that are known on this way too.
fn meeting(
    alloc: Global,
    held: &[Option<u32>],
    old: &[Fact],
    arrived: &[Fact],
) -> Result<Vec<Fact>, Memory> {
    let mut both = Vec::new(alloc);
    for fact in old {
        if is_same(fact.word, known(held, arrived, fact.register)) {
            both.push(*fact)?;
        }
    }
    Ok(both)
}

impl Sweep {
    /// One comes to a block with these facts.
    fn arrive(
        &mut self,
        alloc: Global,
        held: &[Option<u32>],
        arrived: Vec<Fact>,
        block: u32,
    ) -> Result<(), Memory> {
        if let Some(stay) = self.stays.get_mut(block as usize) {
            match stay {
                None => {
                    *stay = Some(Stay {
                        name: 0,
                        facts: arrived,
                    });
                }
                Some(stay) => {
                    let both = meeting(alloc, held, &stay.facts, &arrived)?;
                    stay.facts = both;
                }
            }
        }
        Ok(())
    }

    /// A block that is left in any case, where nothing is known.
    fn keep(&mut self, alloc: Global, block: u32) {
        if let Some(stay) = self.stays.get_mut(block as usize) {
            *stay = Some(Stay {
                name: 0,
                facts: Vec::new(alloc),
            });
        }
    }

    /// A block that is left even where no way leads to it.
    fn keep_idle(&mut self, alloc: Global, block: usize) {
        if let Some(stay) = self.stays.get_mut(block) {
            if stay.is_none() {
                *stay = Some(Stay {
                    name: 0,
                    facts: Vec::new(alloc),
                });
            }
        }
    }

    /// The facts where a block begins, if it is left; it gets its number.
    fn begin(&mut self, alloc: Global, block: usize) -> Result<Option<Vec<Fact>>, Memory> {
        if let Some(Some(stay)) = self.stays.get_mut(block) {
            stay.name = self.left;
            self.left = self.left.wrapping_add(1);
            return Ok(Some(copied(alloc, &stay.facts)?));
        }
        Ok(None)
    }

    fn end(
        &mut self,
        alloc: Global,
        function: &Function,
        seen: &[bool],
        held: &[Option<u32>],
        facts: &[Fact],
        end: End,
    ) -> Result<(), Memory> {
        if let Some(next) = goal(held, facts, end) {
            let block = lead(function, seen, held, facts, next);
            return self.arrive(alloc, held, arriving(alloc, facts, None)?, block);
        }
        if let End::Branch {
            condition,
            left,
            right,
            taken,
            other,
        } = end
        {
            let so = told(held, facts, condition, left, right, true);
            let not = told(held, facts, condition, left, right, false);
            let taken = lead(function, seen, held, facts, taken);
            let other = lead(function, seen, held, facts, other);
            self.arrive(alloc, held, arriving(alloc, facts, so)?, taken)?;
            self.arrive(alloc, held, arriving(alloc, facts, not)?, other)?;
        }
        Ok(())
    }
}

fn begun(alloc: Global, function: &Function) -> Result<Sweep, Memory> {
    let mut stays: Vec<Option<Stay>> = Vec::new(alloc);
    for _ in 0..function.blocks.len() {
        stays.push(None)?;
    }
    let mut sweep = Sweep { stays, left: 0 };
    sweep.keep(alloc, 0);
    for each in &function.loops {
        sweep.keep(alloc, each.header);
        sweep.keep(alloc, each.latch);
    }
    Ok(sweep)
}

/// Whether a block has one of the marks that stay.
fn is_never(never: &[bool], block: &Block) -> bool {
    match block.mark {
        None => false,
        Some(mark) => match never.get(mark as usize) {
            None => false,
            Some(is) => *is,
        },
    }
}

/// What is planned for a function, by mark: whether its block stays even where no way leads to it.
pub fn make_plan(alloc: Global, function: &Function, never: &[bool]) -> Result<Planned, Memory> {
    let held = held_in(alloc, function)?;
    let seen = seen_in(alloc, function)?;
    let nothing: Vec<Option<u32>> = Vec::new(alloc);
    let mut sweep = begun(alloc, function)?;
    for at in 0..function.blocks.len() {
        let block = &function.blocks[at];
        if is_never(never, block) {
            sweep.keep_idle(alloc, at);
        }
        if let Some(facts) = sweep.begin(alloc, at)? {
            let mut facts = facts;
            let base: &[Option<u32>] = if at == 0 { &nothing } else { &held };
            pass_all(alloc, base, &mut facts, &block.code)?;
            sweep.end(alloc, function, &seen, base, &facts, block.end)?;
        }
    }
    let Sweep { stays, .. } = sweep;
    Ok(Planned { held, stays, seen })
}
