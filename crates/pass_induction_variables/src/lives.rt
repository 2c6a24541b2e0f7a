// Which registers are live where, and which instructions nothing needs.
use low_ir::Function;
use pass_strength_sketches::acts::{is_pure, read_at, read_by, register_of, written};
use pass_strength_sketches::living::{Living, lead_on};
use pass_strength_sketches::sketch::{Draft, Line, Sketch, arguments_at};
use pass_strength_sketches::tables::set_number;
use std::alloc::Global;
use wcc_base::Memory;

/// How often the blocks are gone through at most.
const SWEEPS: u32 = 12;

/// How many registers may be live at the beginnings of blocks together.
const LIVE: usize = 4_000_000;

#[derive(Drop)]
pub struct Lives {
    /// By block, what is live as it begins.
    pub registers: Vec<Vec<u32>>,
    /// By block, how many are live together.
    pub most: Vec<u32>,
    /// Whether all was found.
    pub found: bool,
}

fn is_needed(living: &Living, line: Line) -> bool {
    if !is_pure(line.act) {
        return true;
    }
    match written(line.act) {
        None => true,
        Some(into) => living.has(into),
    }
}

/// What is live before an instruction that is needed.
fn pass(living: &mut Living, function: &Function, line: Line, place: (usize, usize)) {
    if let Some(into) = written(line.act) {
        living.remove(into);
    }
    for register in read_by(line.act) {
        living.add_some(register);
    }
    for operand in arguments_at(function, place.0, place.1) {
        living.add_some(register_of(*operand));
    }
}

impl Lives {
    /// What is live as a block begins; its lines are marked.
    fn pass_block(
        &mut self,
        living: &mut Living,
        function: &Function,
        draft: &mut Draft,
        block: usize,
    ) {
        lead_on(living, &self.registers, draft.end);
        for register in read_at(draft.end) {
            living.add_some(register);
        }
        for at in (0..draft.lines.len()).rev() {
            if let Some(line) = draft.lines.get_mut(at) {
                let needed = is_needed(living, *line);
                if needed {
                    pass(living, function, *line, (block, at));
                }
                line.dead = !needed;
            }
        }
        set_number(&mut self.most, block, living.most());
    }

    /// Whether a block has more now.
    fn set(&mut self, block: usize, new: Vec<u32>) -> bool {
        match self.registers.get_mut(block) {
            None => false,
            Some(old) => {
                let changed = old.len() != new.len();
                *old = new;
                changed
            }
        }
    }

    fn sweep(
        &mut self,
        alloc: Global,
        living: &mut Living,
        function: &Function,
        sketch: &mut Sketch,
    ) -> Result<bool, Memory> {
        let mut changed = false;
        let mut all = 0usize;
        let count = sketch.drafts.len();
        for back in 0..count {
            let block = count.wrapping_sub(back).wrapping_sub(1);
            if let Some(draft) = sketch.drafts.get_mut(block) {
                self.pass_block(living, function, draft, block);
                let new = living.take(alloc)?;
                all = all.saturating_add(new.len());
                if self.set(block, new) {
                    changed = true;
                }
            }
            if all > LIVE {
                return Ok(true);
            }
        }
        Ok(changed)
    }
}

/// What is live in a function. Its instructions that nothing needs are marked.
pub fn lives_of(alloc: Global, function: &Function, sketch: &mut Sketch) -> Result<Lives, Memory> {
    let mut registers = Vec::new(alloc);
    for _ in 0..sketch.drafts.len() {
        registers.push(Vec::new(alloc))?;
    }
    let mut lives = Lives {
        registers,
        most: vec![in alloc; 0u32; sketch.drafts.len()]?,
        found: false,
    };
    let mut living = Living::new(alloc, function.registers)?;
    for _ in 0..SWEEPS {
        if !lives.found {
            let changed = lives.sweep(alloc, &mut living, function, sketch)?;
            lives.found = !changed;
        }
    }
    Ok(lives)
}
