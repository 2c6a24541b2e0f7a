// Which words get registers. Nothing is proved of it: any choice is right.
use super::holding::{has_in_itself, is_near};
use low_ir::{Block, End, Function, Instr, Operand};
use rv_core::Alu;
use std::alloc::Global;
use wcc_base::Memory;

/// A word, and how much loops use it.
#[derive(Clone, Copy)]
struct Used {
    word: u32,
    uses: u64,
}

/// The words that loops use, up to so many different ones.
#[derive(Drop)]
struct Uses {
    words: Vec<Used>,
    /// What a use counts.
    worth: u64,
}

/// How many different words of a function are looked at.
const CANDIDATES: usize = 64;

/// How many words of a function get registers.
const MOST: usize = 8;

/// How many instructions put a word into a register.
fn length_of(word: u32) -> u64 {
    if is_near(word) || word & 0xfff == 0 {
        1
    } else {
        2
    }
}

impl Uses {
    fn add(&mut self, word: u32) -> Result<(), Memory> {
        let worth = self.worth.saturating_mul(length_of(word));
        for at in 0..self.words.len() {
            if let Some(used) = self.words.get_mut(at) {
                if used.word == word {
                    used.uses = used.uses.saturating_add(worth);
                    return Ok(());
                }
            }
        }
        if self.words.len() < CANDIDATES {
            self.words.push(Used { word, uses: worth })?;
        }
        Ok(())
    }

    /// A word that isn't 0, which has a register as it is.
    fn read(&mut self, operand: Operand) -> Result<(), Memory> {
        match operand {
            Operand::Register(_) => Ok(()),
            Operand::Constant(0) => Ok(()),
            Operand::Constant(word) => self.add(word),
        }
    }

    fn read_right(&mut self, operator: Alu, operand: Operand) -> Result<(), Memory> {
        match operand {
            Operand::Register(_) => Ok(()),
            Operand::Constant(word) => {
                if has_in_itself(operator, word) {
                    return Ok(());
                }
                self.read(operand)
            }
        }
    }

    fn read_instr(&mut self, instr: &Instr) -> Result<(), Memory> {
        match instr {
            Instr::Operate {
                operator,
                left,
                right,
                ..
            } => {
                self.read(*left)?;
                self.read_right(*operator, *right)
            }
            Instr::Store { value, .. } => self.read(*value),
            _ => Ok(()),
        }
    }

    fn read_end(&mut self, end: End) -> Result<(), Memory> {
        match end {
            End::Branch { left, right, .. } => {
                self.read(left)?;
                self.read(right)
            }
            _ => Ok(()),
        }
    }

    fn read_block(&mut self, block: &Block) -> Result<(), Memory> {
        for instr in &block.code {
            self.read_instr(instr)?;
        }
        self.read_end(block.end)
    }

    /// Takes the word that is used most, if there is one.
    fn take(&mut self) -> Option<u32> {
        let mut best = Used { word: 0, uses: 0 };
        let mut place = 0;
        for at in 0..self.words.len() {
            if let Some(used) = self.words.get(at) {
                if used.uses > best.uses {
                    best = *used;
                    place = at;
                }
            }
        }
        if best.uses == 0 {
            return None;
        }
        if let Some(used) = self.words.get_mut(place) {
            used.uses = 0;
        }
        Some(best.word)
    }
}

/// By block: how many loops begin and end there.
fn add_one(numbers: &mut [u32], at: u32) {
    if let Some(number) = numbers.get_mut(at as usize) {
        *number = number.saturating_add(1);
    }
}

fn number_at(numbers: &[u32], at: usize) -> u32 {
    match numbers.get(at) {
        None => 0,
        Some(number) => *number,
    }
}

/// The words that the loops of a function use. A use counts eight times as much in each loop further inside.
fn uses_in(alloc: Global, function: &Function) -> Result<Uses, Memory> {
    let blocks = function.blocks.len();
    let mut begin = vec![in alloc; 0u32; blocks]?;
    let mut end = vec![in alloc; 0u32; blocks]?;
    for each in &function.loops {
        add_one(&mut begin, each.header);
        add_one(&mut end, each.latch);
    }
    let mut uses = Uses {
        words: Vec::new(alloc),
        worth: 0,
    };
    let mut depth = 0u32;
    for (at, block) in function.blocks.iter().enumerate() {
        depth = depth.saturating_add(number_at(&begin, at));
        if depth > 0 {
            uses.worth = 1u64.wrapping_shl(depth.min(6).wrapping_mul(3));
            uses.read_block(block)?;
        }
        depth = depth.saturating_sub(number_at(&end, at));
    }
    Ok(uses)
}

/// The words of a function that are used most in its loops, at most eight.
fn words_of(alloc: Global, function: &Function) -> Result<Vec<u32>, Memory> {
    let mut words = Vec::new(alloc);
    if function.loops.is_empty() {
        return Ok(words);
    }
    let mut uses = uses_in(alloc, function)?;
    for _ in 0..MOST {
        if let Some(word) = uses.take() {
            words.push(word)?;
        }
    }
    Ok(words)
}

/// By function: the words that get registers.
pub fn chosen(alloc: Global, functions: &[Function]) -> Result<Vec<Vec<u32>>, Memory> {
    let mut words = Vec::new(alloc);
    for function in functions {
        words.push(words_of(alloc, function)?)?;
    }
    Ok(words)
}
