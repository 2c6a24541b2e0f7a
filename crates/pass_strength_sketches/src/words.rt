// Which registers of a function hold words alone, which words below 2^32, and which one word.
use super::acts::{Act, act_of, written};
use super::smalls::{is_small, smalls_of};
use super::tables::{add_one, flag_at, number_at, set_flag};
use low_ir::{Block, Function, Operand};
use std::alloc::Global;
use wcc_base::Memory;

/// How often copies are followed.
const SWEEPS: u32 = 4;

#[derive(Drop)]
pub struct Words {
    /// By register, the word that the first block sets it to, where nothing else writes it.
    constants: Vec<Option<u32>>,
    /// By register, whether each write of it is one of a word; parameters may be pointers.
    are_words: Vec<bool>,
    /// By register, whether it is taken off others and each write of it is one of a word below 2^32.
    are_small: Vec<bool>,
}

/// How often each register is written, parameters twice more.
fn writes_of(alloc: Global, function: &Function) -> Result<Vec<u32>, Memory> {
    let mut writes = vec![in alloc; 0u32; function.registers as usize]?;
    for parameter in &function.parameters {
        add_one(&mut writes, *parameter as usize);
        add_one(&mut writes, *parameter as usize);
    }
    for block in &function.blocks {
        for instr in &block.code {
            if let Some(into) = written(act_of(instr)) {
                add_one(&mut writes, into as usize);
            }
        }
    }
    Ok(writes)
}

fn set_constant(constants: &mut [Option<u32>], writes: &[u32], act: Act) {
    if let Act::Set {
        into,
        value: Operand::Constant(word),
    } = act
    {
        if number_at(writes, into as usize) == 1 {
            if let Some(slot) = constants.get_mut(into as usize) {
                *slot = Some(word);
            }
        }
    }
}

fn constants_of(
    alloc: Global,
    function: &Function,
    writes: &[u32],
) -> Result<Vec<Option<u32>>, Memory> {
    let mut constants = vec![in alloc; None; function.registers as usize]?;
    if let Some(block) = function.blocks.get(0) {
        for instr in &block.code {
            set_constant(&mut constants, writes, act_of(instr));
        }
    }
    Ok(constants)
}

/// Whether an instruction writes a word.
fn gives_word(are_words: &[bool], act: Act) -> bool {
    match act {
        Act::Point { .. } => false,
        Act::Set {
            value: Operand::Register(register),
            ..
        } => flag_at(are_words, register as usize),
        _ => true,
    }
}

/// Takes registers out that are set to others that may be pointers, and says whether there were any.
fn narrow(are_words: &mut [bool], blocks: &[Block]) -> bool {
    let mut changed = false;
    for block in blocks {
        for instr in &block.code {
            let act = act_of(instr);
            if let Some(into) = written(act) {
                if flag_at(are_words, into as usize) && !gives_word(are_words, act) {
                    set_flag(are_words, into as usize, false);
                    changed = true;
                }
            }
        }
    }
    changed
}

fn words_in(alloc: Global, function: &Function, writes: &[u32]) -> Result<Vec<bool>, Memory> {
    let mut are_words = Vec::new(alloc);
    for count in writes {
        are_words.push(*count > 0)?;
    }
    for parameter in &function.parameters {
        set_flag(&mut are_words, *parameter as usize, false);
    }
    narrow_all(&mut are_words, &function.blocks);
    Ok(are_words)
}

fn narrow_all(are_words: &mut [bool], blocks: &[Block]) {
    for _ in 0..SWEEPS {
        if !narrow(are_words, blocks) {
            return;
        }
    }
}

pub fn words_of(alloc: Global, function: &Function) -> Result<Words, Memory> {
    let writes = writes_of(alloc, function)?;
    Ok(Words {
        constants: constants_of(alloc, function, &writes)?,
        are_words: words_in(alloc, function, &writes)?,
        are_small: smalls_of(alloc, function)?,
    })
}

impl Words {
    /// The word that a register holds all the time.
    pub fn constant(&self, register: u32) -> Option<u32> {
        match self.constants.get(register as usize) {
            None => None,
            Some(word) => *word,
        }
    }

    /// Some registers may be no words.
    pub fn forget(&mut self, blocks: &[Block], registers: &[u32]) {
        for register in registers {
            set_flag(&mut self.are_words, *register as usize, false);
        }
        narrow_all(&mut self.are_words, blocks);
    }

    pub fn is_word(&self, register: u32) -> bool {
        flag_at(&self.are_words, register as usize)
    }

    /// Whether what is taken off others is surely a word below 2^32.
    pub fn is_small(&self, operand: Operand) -> bool {
        is_small(&self.are_small, operand)
    }

    /// The word that is read.
    pub fn word_of(&self, operand: Operand) -> Option<u32> {
        match operand {
            Operand::Constant(word) => Some(word),
            Operand::Register(register) => self.constant(register),
        }
    }
}
