// What becomes of each instruction of a block. Nothing is proved of it: a choice that can't be followed leaves the program as it is.
use super::copy::{Copied, copy_at};
use super::known::Known;
use super::numbers::{Numbers, gives_word};
use super::reading::{Reader, read_end, read_instr};
use super::renaming::{only_written, writes};
use low_ir::{Block, End, Function, Instr};
use low_parts::accesses::written;
use std::alloc::Global;
use wcc_base::Memory;

/// What becomes of an instruction.
#[derive(Clone, Copy)]
pub enum Choice {
    Stays,
    /// A copy: the instruction before it writes to where it copies to.
    Delivered,
    /// A copy: what reads it reads what it is a copy of.
    LeftOut,
    /// An instruction that only writes a register, which nothing reads then.
    Unread,
    /// Its value goes to this register, and lives in the block alone.
    Apart(u32),
}

/// What lies behind an instruction, of each register. Places of the code are counted from block to block, so that nothing has to be
/// cleared for the next one.
#[derive(Drop)]
pub struct Behind {
    /// The last place where the value that it has here is read.
    read: Vec<u64>,
    /// The next place where it is written.
    written: Vec<u64>,
    /// The place of a copy of its value that is left out.
    copied: Vec<u64>,
    /// Registers that values may have for themselves.
    numbers: Numbers,
    /// The first place of the block.
    first: u64,
    /// A place behind its last one, where the blocks to which it leads read what they count on.
    last: u64,
    /// The place.
    at: u64,
}

/// Whether a copy is delivered by the instruction before it.
pub fn is_delivered(choice: Choice) -> bool {
    match choice {
        Choice::Delivered => true,
        _ => false,
    }
}

fn place_of(places: &[u64], register: u32) -> u64 {
    match places.get(register as usize) {
        None => 0,
        Some(place) => *place,
    }
}

impl Reader for Behind {
    fn read(&mut self, register: u32) -> Result<(), Memory> {
        let first = self.first;
        let at = self.at;
        if let Some(place) = self.read.get_mut(register as usize) {
            if *place < first {
                *place = at;
            }
        }
        Ok(())
    }
}

impl Behind {
    /// Nothing is behind, in a function that may have so many registers.
    pub fn new(alloc: Global, function: &Function, registers: u32) -> Result<Behind, Memory> {
        Ok(Behind {
            read: vec![in alloc; 0u64; registers as usize]?,
            written: vec![in alloc; 0u64; registers as usize]?,
            copied: vec![in alloc; 0u64; registers as usize]?,
            numbers: Numbers::of(alloc, function, registers)?,
            first: 1,
            last: 1,
            at: 1,
        })
    }

    fn write(&mut self, register: u32) {
        let at = self.at;
        if let Some(place) = self.read.get_mut(register as usize) {
            *place = 0;
        }
        if let Some(place) = self.copied.get_mut(register as usize) {
            *place = 0;
        }
        if let Some(place) = self.written.get_mut(register as usize) {
            *place = at;
        }
    }

    fn pass(&mut self, instr: &Instr) -> Result<(), Memory> {
        if let Some(register) = written(instr) {
            self.write(register);
        }
        read_instr(self, instr)
    }

    /// What a block counts on to which this one leads is read.
    fn lead_to(&mut self, lists: &[Vec<u32>], block: u32) -> Result<(), Memory> {
        if let Some(list) = lists.get(block as usize) {
            for register in list {
                self.read(*register)?;
            }
        }
        Ok(())
    }

    fn lead_on(&mut self, lists: &[Vec<u32>], end: End) -> Result<(), Memory> {
        match end {
            End::Jump { block } => self.lead_to(lists, block),
            End::Branch { taken, other, .. } => {
                self.lead_to(lists, taken)?;
                self.lead_to(lists, other)
            }
            End::Return { .. } => Ok(()),
        }
    }

    /// Whether a register may stand in another one from here on: no block behind counts on it, and it isn't read any more when the
    /// other one is written.
    fn may_stand(&self, register: u32, place: u32) -> bool {
        let read = place_of(&self.read, register);
        let next = place_of(&self.written, place);
        read != self.last && (next < self.first || read <= next)
    }

    /// What becomes of a copy that stands at this place of the code.
    fn choice(&self, known: &Known, code: &[Instr], at: usize, copy: Copied) -> Choice {
        if self.is_delivered(known, code, at, copy) {
            Choice::Delivered
        } else if !known.is_lasting(copy.into) && self.may_stand(copy.into, copy.source) {
            Choice::LeftOut
        } else {
            Choice::Stays
        }
    }

    /// Whether the instruction before a copy can write to where it copies to.
    fn is_delivered(&self, known: &Known, code: &[Instr], at: usize, copy: Copied) -> bool {
        if at == 0 || copy.into == copy.source || known.is_lasting(copy.source) {
            return false;
        }
        match code.get(at.wrapping_sub(1)) {
            None => false,
            Some(before) => {
                writes(before, copy.source) && self.may_stand(copy.source, copy.into)
            }
        }
    }

    /// The register that an instruction writes, if it does nothing else and nothing behind it reads that.
    fn unread(&self, known: &Known, instr: &Instr) -> Option<u32> {
        let register = only_written(instr)?;
        if known.is_lasting(register) || place_of(&self.read, register) >= self.first {
            None
        } else {
            Some(register)
        }
    }

    /// The register has a copy of its value left out, and has to keep it.
    fn note_copied(&mut self, register: u32) {
        let at = self.at;
        if let Some(place) = self.copied.get_mut(register as usize) {
            *place = at;
        }
    }

    /// Whether the value that is written to a register lives in the block alone, and may have another register.
    fn lives_here(&self, known: &Known, register: u32) -> bool {
        !known.is_lasting(register)
            && place_of(&self.read, register) != self.last
            && place_of(&self.copied, register) < self.first
    }

    /// What becomes of a value that is no copy.
    fn choice_of_value(&mut self, known: &Known, instr: &Instr) -> Choice {
        match written(instr) {
            None => Choice::Stays,
            Some(register) => {
                if !gives_word(instr) || !self.lives_here(known, register) {
                    return Choice::Stays;
                }
                match self.numbers.next(register) {
                    None => Choice::Stays,
                    Some(place) => Choice::Apart(place),
                }
            }
        }
    }

    fn choice_of_copy(&mut self, known: &Known, code: &[Instr], at: usize, copy: Copied) -> Choice {
        let choice = self.choice(known, code, at, copy);
        if let Choice::LeftOut = choice {
            self.note_copied(copy.source);
        }
        choice
    }

    /// What becomes of the instruction at a place, which may deliver to a copy behind it.
    fn choice_at(
        &mut self,
        known: &Known,
        code: &[Instr],
        at: usize,
        delivers: bool,
        instr: &Instr,
    ) -> Choice {
        match copy_at(code, at) {
            Some(copy) => self.choice_of_copy(known, code, at, copy),
            None => {
                if delivers {
                    Choice::Stays
                } else {
                    self.choice_of_value(known, instr)
                }
            }
        }
    }

    /// The same, as it is passed. One that is left out reads nothing.
    fn pass_at(
        &mut self,
        known: &Known,
        code: &[Instr],
        at: usize,
        delivers: bool,
        instr: &Instr,
    ) -> Result<Choice, Memory> {
        if let Some(register) = self.unread(known, instr) {
            self.write(register);
            return Ok(Choice::Unread);
        }
        let choice = self.choice_at(known, code, at, delivers, instr);
        self.pass(instr)?;
        Ok(choice)
    }

    /// By instruction of a block, what becomes of it.
    pub fn choices(
        &mut self,
        alloc: Global,
        known: &Known,
        lists: &[Vec<u32>],
        block: &Block,
    ) -> Result<Vec<Choice>, Memory> {
        let places = block.code.len();
        let mut choices = vec![in alloc; Choice::Stays; places]?;
        self.last = self.first.wrapping_add(places as u64).wrapping_add(1);
        self.at = self.last;
        self.lead_on(lists, block.end)?;
        self.at = self.at.wrapping_sub(1);
        read_end(self, block.end)?;
        let mut delivers = false;
        for at in (0..places).rev() {
            self.at = self.at.wrapping_sub(1);
            if let Some(instr) = block.code.get(at) {
                let new = self.pass_at(known, &block.code, at, delivers, instr)?;
                delivers = is_delivered(new);
                if let Some(choice) = choices.get_mut(at) {
                    *choice = new;
                }
            }
        }
        self.first = self.last.wrapping_add(1);
        Ok(choices)
    }
}
