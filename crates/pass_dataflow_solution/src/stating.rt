// What is known as blocks begin, wherever that is wanted.
use super::knowing::Knowing;
use super::needs::Needs;
use low_ir::{End, Function, Loop, Operand};
use pass_dataflow_facts::{Fact, Form, Origin};
use pass_strength_sketches::acts::{nexts, written};
use pass_strength_sketches::forms::{behind, is_same};
use pass_strength_sketches::sketch::{Draft, Pointer, Sketch, end_of, lines_of};
use pass_strength_sketches::tables::{flag_at, list_at, set_flag};
use pass_strength_sketches::words::Words;
use std::alloc::Global;
use wcc_base::Memory;

/// How often the blocks are gone through at most.
const SWEEPS: u32 = 24;

/// By block, what is known of the registers that are wanted: none where one may be no word.
#[derive(Drop)]
struct Stating<'a> {
    lists: &'a [Vec<u32>],
    /// By block and place in its list, whether a loop writes the register whose header the block is.
    varying: Vec<Vec<bool>>,
    seen: Vec<bool>,
    forms: Vec<Vec<Option<Form>>>,
}

/// That a register is a word, where it is one.
fn itself(register: u32, form: Option<Form>) -> Option<Form> {
    match form {
        None => None,
        Some(_) => Some(behind(register, 0)),
    }
}

/// The registers that a loop writes.
fn set_written(drafts: &[Draft], flags: &mut [bool], each: Loop, new: bool) {
    for block in each.header..=each.latch {
        for line in lines_of(drafts, block as usize) {
            if let Some(into) = written(line.act) {
                set_flag(flags, into as usize, new);
            }
        }
    }
}

/// What is known by two ways.
fn met(register: u32, old: Option<Form>, new: Option<Form>) -> Option<Form> {
    match old {
        None => None,
        Some(a) => match new {
            None => None,
            Some(b) => {
                if is_same(a, b) {
                    Some(a)
                } else {
                    Some(behind(register, 0))
                }
            }
        },
    }
}

fn differ(old: Option<Form>, new: Option<Form>) -> bool {
    match old {
        None => new.is_some(),
        Some(a) => match new {
            None => true,
            Some(b) => !is_same(a, b),
        },
    }
}

fn forms_at(forms: &[Vec<Option<Form>>], block: usize) -> &[Option<Form>] {
    match forms.get(block) {
        None => &[],
        Some(forms) => forms.as_slice(),
    }
}

impl<'a> Stating<'a> {
    /// Nothing is known at the function's beginning.
    fn new(alloc: Global, lists: &'a [Vec<u32>]) -> Result<Stating<'a>, Memory> {
        let mut forms = Vec::new(alloc);
        let mut varying = Vec::new(alloc);
        for list in lists {
            forms.push(vec![in alloc; None; list.len()]?)?;
            varying.push(Vec::new(alloc))?;
        }
        let mut seen = vec![in alloc; false; lists.len()]?;
        set_flag(&mut seen, 0, true);
        Ok(Stating {
            lists,
            varying,
            seen,
            forms,
        })
    }

    /// Notes which registers a loop writes.
    fn note(
        &mut self,
        alloc: Global,
        drafts: &[Draft],
        flags: &mut [bool],
        each: Loop,
    ) -> Result<(), Memory> {
        set_written(drafts, flags, each, true);
        let mut varying = Vec::new(alloc);
        for register in list_at(self.lists, each.header as usize) {
            varying.push(flag_at(flags, *register as usize))?;
        }
        set_written(drafts, flags, each, false);
        if let Some(slot) = self.varying.get_mut(each.header as usize) {
            *slot = varying;
        }
        Ok(())
    }

    fn varies(&self, block: usize, at: usize) -> bool {
        match self.varying.get(block) {
            None => false,
            Some(flags) => flag_at(flags, at),
        }
    }

    fn put(&mut self, block: usize, at: usize, new: Option<Form>) -> bool {
        match self.forms.get_mut(block) {
            None => false,
            Some(forms) => match forms.get_mut(at) {
                None => false,
                Some(slot) => {
                    let changed = differ(*slot, new);
                    *slot = new;
                    changed
                }
            },
        }
    }

    fn form_at(&self, block: usize, at: usize) -> Option<Form> {
        match forms_at(&self.forms, block).get(at) {
            None => None,
            Some(form) => *form,
        }
    }

    /// A way leads to a block.
    fn lead_to(&mut self, knowing: &Knowing, block: usize) -> bool {
        let first = !flag_at(&self.seen, block);
        set_flag(&mut self.seen, block, true);
        let mut changed = first;
        for (at, register) in list_at(self.lists, block).iter().enumerate() {
            let now = knowing.now(*register);
            let new = if self.varies(block, at) {
                itself(*register, now)
            } else {
                now
            };
            let both = if first {
                new
            } else {
                met(*register, self.form_at(block, at), new)
            };
            if self.put(block, at, both) {
                changed = true;
            }
        }
        changed
    }

    fn lead_on(&mut self, knowing: &Knowing, end: End) -> bool {
        let mut changed = false;
        for next in nexts(end) {
            if let Some(next) = next {
                if self.lead_to(knowing, next as usize) {
                    changed = true;
                }
            }
        }
        changed
    }

    fn sweep(&mut self, knowing: &mut Knowing, words: &Words, drafts: &[Draft]) -> bool {
        let mut changed = false;
        for (block, draft) in drafts.iter().enumerate() {
            if flag_at(&self.seen, block) {
                knowing.begin(list_at(self.lists, block), forms_at(&self.forms, block));
                for line in &draft.lines {
                    knowing.pass(words, line.act);
                }
                if self.lead_on(knowing, draft.end) {
                    changed = true;
                }
            }
        }
        changed
    }
}

/// Whether something that isn't seen from the register itself is known of it.
fn says_more(register: u32, form: Form) -> bool {
    !form.has(register)
}

/// What is said of what a register holds. Where it must be a word, that is said; else it follows from what is done with it.
fn origin_of(words: &Words, register: u32, must: bool) -> Origin {
    if words.is_small(Operand::Register(register)) {
        Origin::Small
    } else if must {
        Origin::Word
    } else {
        Origin::Any
    }
}

/// What is said of a register, if there is anything to say.
fn fact_of(register: u32, origin: Origin, form: Form) -> Option<Fact> {
    let fact = Fact {
        register,
        origin,
        form,
    };
    match origin {
        Origin::Any => {
            if says_more(register, form) {
                Some(fact)
            } else {
                None
            }
        }
        _ => Some(fact),
    }
}

/// What is known of words.
#[derive(Drop)]
pub struct Stated {
    /// By block.
    pub facts: Vec<Vec<Fact>>,
    /// Registers that are to be words and may be none.
    pub lacking: Vec<u32>,
}

impl Stated {
    /// The facts of the next block that the checker needs.
    fn add(
        &mut self,
        alloc: Global,
        words: &Words,
        registers: &[u32],
        forms: &[Option<Form>],
        flags: &[bool],
    ) -> Result<(), Memory> {
        let mut facts = Vec::new(alloc);
        for (at, register) in registers.iter().enumerate() {
            let must = flag_at(flags, *register as usize);
            let form = match forms.get(at) {
                None => None,
                Some(form) => *form,
            };
            match form {
                None => {
                    if must {
                        self.lacking.push(*register)?;
                    }
                }
                Some(form) => {
                    let origin = origin_of(words, *register, must);
                    if let Some(fact) = fact_of(*register, origin, form) {
                        facts.push(fact)?;
                    }
                }
            }
        }
        Ok(self.facts.push(facts)?)
    }
}

fn set_flags(flags: &mut [bool], registers: &[u32], new: bool) {
    for register in registers {
        set_flag(flags, *register as usize, new);
    }
}

fn all_facts(
    alloc: Global,
    words: &Words,
    needs: &Needs,
    forms: &[Vec<Option<Form>>],
    reached: &[bool],
    registers: u32,
) -> Result<Stated, Memory> {
    let mut flags = vec![in alloc; false; registers as usize]?;
    let mut stated = Stated {
        facts: Vec::new(alloc),
        lacking: Vec::new(alloc),
    };
    for (block, list) in needs.forms.iter().enumerate() {
        if flag_at(reached, block) {
            set_flags(&mut flags, list_at(&needs.words, block), true);
            stated.add(alloc, words, list, forms_at(forms, block), &flags)?;
            set_flags(&mut flags, list_at(&needs.words, block), false);
        } else {
            stated.facts.push(Vec::new(alloc))?;
        }
    }
    Ok(stated)
}

/// What is known of words; nothing, where it isn't found in time.
pub fn words_known(
    alloc: Global,
    words: &Words,
    sketch: &Sketch,
    needs: &Needs,
    function: &Function,
) -> Result<Option<Stated>, Memory> {
    let registers = function.registers;
    let mut knowing = Knowing::new(alloc, registers)?;
    let mut stating = Stating::new(alloc, &needs.forms)?;
    let mut flags = vec![in alloc; false; registers as usize]?;
    for each in &function.loops {
        stating.note(alloc, &sketch.drafts, &mut flags, *each)?;
    }
    for _ in 0..SWEEPS {
        if !stating.sweep(&mut knowing, words, &sketch.drafts) {
            let stated = all_facts(
                alloc,
                words,
                needs,
                &stating.forms,
                &stating.seen,
                registers,
            )?;
            return Ok(Some(stated));
        }
    }
    Ok(None)
}

/// A form with what is known of its registers in their place.
fn resolved(facts: &[Fact], form: Form) -> Option<Form> {
    let mut made = Form::constant(form.constant);
    for term in form.terms {
        let mut known = behind(term.register, 0);
        for fact in facts {
            if fact.register == term.register && term.factor != 0 {
                known = fact.form;
            }
        }
        made = made.plus(term.factor, known)?;
    }
    Some(made)
}

/// Adds what is known of a pointer that lags so much as a block begins, and says whether it could be said.
fn add_pointer(pointer: &Pointer, lag: u32, facts: &mut Vec<Fact>) -> Result<bool, Memory> {
    let form = pointer.form.moved(0u32.wrapping_sub(lag));
    match resolved(facts.as_slice(), form) {
        None => Ok(false),
        Some(form) => {
            facts.push(Fact {
                register: pointer.register,
                origin: Origin::Object(pointer.object),
                form,
            })?;
            Ok(true)
        }
    }
}

/// Adds what is known of pointers in the blocks of their loops.
pub fn add_pointers(
    sketch: &Sketch,
    reached: &[bool],
    facts: &mut Vec<Vec<Fact>>,
) -> Result<bool, Memory> {
    for pointer in &sketch.pointers {
        for (row, lag) in pointer.lags.iter().enumerate() {
            let block = pointer.header.wrapping_add(row);
            if flag_at(reached, block) {
                if let Some(list) = facts.get_mut(block) {
                    if !add_pointer(pointer, *lag, list)? {
                        return Ok(false);
                    }
                }
            }
        }
    }
    Ok(true)
}

/// Where no way leads anything may be said: what is said of the block to which one leads from there.
pub fn add_unreached(
    sketch: &Sketch,
    reached: &[bool],
    facts: &mut Vec<Vec<Fact>>,
) -> Result<(), Memory> {
    let count = sketch.drafts.len();
    for back in 0..count {
        let block = count.wrapping_sub(back).wrapping_sub(1);
        if !flag_at(reached, block) {
            if let [Some(next), _] = nexts(end_of(&sketch.drafts, block)) {
                copy_facts(facts, next as usize, block)?;
            }
        }
    }
    Ok(())
}

fn copy_facts(facts: &mut Vec<Vec<Fact>>, from: usize, to: usize) -> Result<(), Memory> {
    let count = match facts.get(from) {
        None => 0,
        Some(list) => list.len(),
    };
    for at in 0..count {
        if let Some(fact) = fact_at(facts, from, at) {
            if let Some(list) = facts.get_mut(to) {
                list.push(fact)?;
            }
        }
    }
    Ok(())
}

fn fact_at(facts: &[Vec<Fact>], block: usize, at: usize) -> Option<Fact> {
    match facts.get(block) {
        None => None,
        Some(list) => match list.get(at) {
            None => None,
            Some(fact) => Some(*fact),
        },
    }
}
