// How often registers are read, and where they are written.
use low_ir::Function;
use pass_strength_sketches::acts::{is_pure, read_at, read_by, register_of, written};
use pass_strength_sketches::sketch::{Draft, Line, arguments_at};
use pass_strength_sketches::tables::add_one;
use std::alloc::Global;
use wcc_base::Memory;

/// A place of the code.
#[derive(Clone, Copy)]
pub struct Place {
    pub block: usize,
    pub at: usize,
}

#[derive(Drop)]
pub struct Counts {
    /// By register, how many instructions that are needed and write other ones read it, and how many ends of blocks.
    pub reads: Vec<u32>,
    /// By register, where it is written by an instruction that does nothing else.
    pub writes: Vec<Vec<Place>>,
}

/// The registers that an instruction reads, but for the one that it writes.
pub fn others_read_by(line: Line) -> [Option<u32>; 3] {
    let mut all = read_by(line.act);
    if let Some(into) = written(line.act) {
        for slot in &mut all {
            if let Some(register) = *slot {
                if register == into {
                    *slot = None;
                }
            }
        }
    }
    all
}

fn count_some(reads: &mut [u32], register: Option<u32>) {
    if let Some(register) = register {
        add_one(reads, register as usize);
    }
}

fn count_line(reads: &mut [u32], function: &Function, line: Line, place: Place) {
    for register in others_read_by(line) {
        count_some(reads, register);
    }
    for operand in arguments_at(function, place.block, place.at) {
        count_some(reads, register_of(*operand));
    }
}

impl Counts {
    fn write(&mut self, line: Line, place: Place) -> Result<(), Memory> {
        if !is_pure(line.act) {
            return Ok(());
        }
        let Some(into) = written(line.act) else {
            return Ok(());
        };
        match self.writes.get_mut(into as usize) {
            None => Ok(()),
            Some(list) => Ok(list.push(place)?),
        }
    }

    fn count_draft(
        &mut self,
        function: &Function,
        block: usize,
        draft: &Draft,
    ) -> Result<(), Memory> {
        for (at, line) in draft.lines.iter().enumerate() {
            if !line.dead {
                let place = Place { block, at };
                count_line(&mut self.reads, function, *line, place);
                self.write(*line, place)?;
            }
        }
        for register in read_at(draft.end) {
            count_some(&mut self.reads, register);
        }
        Ok(())
    }
}

pub fn counts_of(alloc: Global, function: &Function, drafts: &[Draft]) -> Result<Counts, Memory> {
    let mut writes = Vec::new(alloc);
    for _ in 0..function.registers {
        writes.push(Vec::new(alloc))?;
    }
    let mut counts = Counts {
        reads: vec![in alloc; 0u32; function.registers as usize]?,
        writes,
    };
    for (block, draft) in drafts.iter().enumerate() {
        counts.count_draft(function, block, draft)?;
    }
    Ok(counts)
}
