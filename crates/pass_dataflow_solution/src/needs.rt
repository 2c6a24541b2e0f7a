// Of which registers it has to be known what they hold, so that the new code can be followed.
use low_ir::Operand;
use pass_strength_sketches::acts::{Act, read_by, register_of, written};
use pass_strength_sketches::living::{Living, lead_on};
use pass_strength_sketches::sketch::{Draft, Line, Sketch};
use pass_strength_sketches::tables::{flag_at, set_flag};
use std::alloc::Global;
use wcc_base::Memory;

/// How often the blocks are gone through at most.
const SWEEPS: u32 = 16;

/// How many registers are wanted of a block on an average at most, and of all beside that.
const EACH: usize = 16;

const BESIDE: usize = 65536;

/// What is asked for.
#[derive(Clone, Copy)]
enum Want {
    /// Registers that new instructions read must be words.
    Words,
    /// And what is found of the registers by which accesses find their addresses must be found again.
    Forms,
}

fn wants_forms(want: Want) -> bool {
    match want {
        Want::Words => false,
        Want::Forms => true,
    }
}

/// By block, of which registers something is to be known as it begins.
#[derive(Drop)]
pub struct Needs {
    pub words: Vec<Vec<u32>>,
    pub forms: Vec<Vec<u32>>,
}

fn add_operands(living: &mut Living, act: Act) {
    for register in read_by(act) {
        living.add_some(register);
    }
}

/// A register that is a word stays one where it is stepped.
fn add_itself(living: &mut Living, act: Act, into: u32) {
    for register in read_by(act) {
        if let Some(register) = register {
            if register == into {
                living.add(register);
            }
        }
    }
}

/// What has to be known where a register that is wanted is written.
fn add_made(living: &mut Living, act: Act, want: Want) {
    match act {
        Act::Set {
            value: Operand::Register(register),
            ..
        } => living.add(register),
        Act::Operate { into, .. } => {
            if wants_forms(want) {
                add_operands(living, act);
            } else {
                add_itself(living, act, into);
            }
        }
        _ => {}
    }
}

/// By how much a register of a pointer's form is stepped has to be known.
fn add_step(living: &mut Living, act: Act, into: u32) {
    if let Act::Operate { left, right, .. } = act {
        for operand in [left, right] {
            match register_of(operand) {
                None => {}
                Some(register) => {
                    if register != into {
                        living.add(register);
                    }
                }
            }
        }
    }
}

fn pass_write(living: &mut Living, steps: &[bool], line: Line, want: Want) {
    let Some(into) = written(line.act) else {
        return;
    };
    if living.has(into) {
        living.remove(into);
        add_made(living, line.act, want);
    } else if wants_forms(want) && flag_at(steps, into as usize) {
        add_step(living, line.act, into);
    }
}

/// What a new instruction reads as a word.
fn pass_placed(living: &mut Living, act: Act) {
    match act {
        Act::Point { address, .. } => living.add_some(address.offset),
        _ => add_operands(living, act),
    }
}

fn pass_line(living: &mut Living, steps: &[bool], line: Line, placed: bool, want: Want) {
    pass_write(living, steps, line, want);
    if placed {
        pass_placed(living, line.act);
    }
    if wants_forms(want) {
        living.add_some(line.served);
    }
}

fn pass_block(living: &mut Living, steps: &[bool], lists: &[Vec<u32>], draft: &Draft, want: Want) {
    lead_on(living, lists, draft.end);
    if wants_forms(want) {
        living.add_all(&draft.entered);
    }
    let count = draft.lines.len();
    for back in 0..count {
        let at = count.wrapping_sub(back).wrapping_sub(1);
        if let Some(line) = draft.lines.get(at) {
            pass_line(living, steps, *line, at >= draft.own, want);
        }
    }
}

/// The registers in the forms of pointers.
fn steps_of(alloc: Global, sketch: &Sketch, registers: u32) -> Result<Vec<bool>, Memory> {
    let mut steps = vec![in alloc; false; registers as usize]?;
    for pointer in &sketch.pointers {
        for term in pointer.form.terms {
            if term.factor != 0 {
                set_flag(&mut steps, term.register as usize, true);
            }
        }
    }
    Ok(steps)
}

/// What goes through the blocks.
#[derive(Drop)]
struct Wanting<'a> {
    drafts: &'a [Draft],
    steps: &'a [bool],
    want: Want,
    lists: Vec<Vec<u32>>,
    all: usize,
}

impl<'a> Wanting<'a> {
    /// Whether a block has more now.
    fn set(&mut self, block: usize, new: Vec<u32>) -> bool {
        self.all = self.all.saturating_add(new.len());
        match self.lists.get_mut(block) {
            None => false,
            Some(old) => {
                let changed = old.len() != new.len();
                *old = new;
                changed
            }
        }
    }

    fn is_too_much(&self) -> bool {
        self.all
            > self
                .drafts
                .len()
                .saturating_mul(EACH)
                .saturating_add(BESIDE)
    }

    fn sweep(&mut self, alloc: Global, living: &mut Living) -> Result<bool, Memory> {
        let mut changed = false;
        self.all = 0;
        let count = self.drafts.len();
        for back in 0..count {
            let block = count.wrapping_sub(back).wrapping_sub(1);
            if let Some(draft) = self.drafts.get(block) {
                pass_block(living, self.steps, &self.lists, draft, self.want);
                let new = living.take(alloc)?;
                if self.set(block, new) {
                    changed = true;
                }
            }
            if self.is_too_much() {
                return Ok(true);
            }
        }
        Ok(changed)
    }
}

/// By block what is wanted; nothing, where that isn't found in time.
fn wanted(
    alloc: Global,
    sketch: &Sketch,
    steps: &[bool],
    want: Want,
) -> Result<Option<Vec<Vec<u32>>>, Memory> {
    let mut lists = Vec::new(alloc);
    for _ in 0..sketch.drafts.len() {
        lists.push(Vec::new(alloc))?;
    }
    let mut wanting = Wanting {
        drafts: &sketch.drafts,
        steps,
        want,
        lists,
        all: 0,
    };
    let registers = u32::try_from(steps.len()).unwrap_or(0);
    let mut living = Living::new(alloc, registers)?;
    for _ in 0..SWEEPS {
        if !wanting.sweep(alloc, &mut living)? {
            return Ok(Some(wanting.lists));
        }
    }
    Ok(None)
}

/// What is to be known of a function.
pub fn needs_of(alloc: Global, sketch: &Sketch, registers: u32) -> Result<Option<Needs>, Memory> {
    let steps = steps_of(alloc, sketch, registers)?;
    let Some(words) = wanted(alloc, sketch, &steps, Want::Words)? else {
        return Ok(None);
    };
    let Some(forms) = wanted(alloc, sketch, &steps, Want::Forms)? else {
        return Ok(None);
    };
    Ok(Some(Needs { words, forms }))
}
