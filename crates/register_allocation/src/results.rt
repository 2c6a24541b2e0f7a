// Which registers are best in the result register. Nothing is proved of it: whoever may not have it gets another one.
use super::order::Lasting;
use super::tastes::{Tastes, worths};
use low_ir::instruction::{End, Instr, Operand};
use low_ir::{Block, Function};
use std::alloc::Global;
use wcc_base::Memory;

/// How often copies of what is chosen are looked for.
const ROUNDS: u8 = 3;

/// A move that is saved counts so much more than another machine register that is left free, which a function might save.
const SCALE: u64 = 64;

/// What is known of the registers of a function.
#[derive(Drop)]
struct Uses {
    /// How much the moves are worth that are saved if it is there.
    saves: Vec<u64>,
    /// How many values come from the environment or from a call.
    comes: Vec<u32>,
    /// By place, how many instructions before it take the result register.
    spoils: Vec<u32>,
    /// Parameters.
    passed: Vec<bool>,
    /// Copies: into, of, worth.
    copies: Vec<(u32, u32, u64)>,
}

fn at(numbers: &[u32], index: usize) -> u32 {
    match numbers.get(index) {
        None => 0,
        Some(number) => *number,
    }
}

fn worth_in(worths: &[u64], block: usize) -> u64 {
    match worths.get(block) {
        None => 0,
        Some(worth) => *worth,
    }
}

fn weight(weights: &[u64], register: u32) -> u64 {
    match weights.get(register as usize) {
        None => 0,
        Some(weight) => *weight,
    }
}

fn add(weights: &mut [u64], register: u32, worth: u64) {
    if let Some(weight) = weights.get_mut(register as usize) {
        *weight = weight.saturating_add(worth);
    }
}

fn is_set(flags: &[bool], register: u32) -> bool {
    match flags.get(register as usize) {
        None => false,
        Some(flag) => *flag,
    }
}

fn set(flags: &mut [bool], register: u32, new: bool) {
    if let Some(flag) = flags.get_mut(register as usize) {
        *flag = new;
    }
}

impl Uses {
    fn come(&mut self, register: u32, worth: u64) {
        add(&mut self.saves, register, worth);
        if let Some(number) = self.comes.get_mut(register as usize) {
            *number = number.wrapping_add(1);
        }
    }

    fn go(&mut self, operand: Operand, worth: u64) {
        if let Operand::Register(register) = operand {
            add(&mut self.saves, register, worth);
        }
    }

    fn read(&mut self, instr: &Instr, worth: u64) -> Result<bool, Memory> {
        match instr {
            Instr::Put { value } => {
                self.go(*value, worth);
                Ok(true)
            }
            Instr::Get { into } => {
                self.come(*into, worth);
                Ok(true)
            }
            Instr::Call { into, .. } => {
                if let Some(into) = *into {
                    self.come(into, worth);
                }
                Ok(true)
            }
            Instr::Set { into, value } => {
                if let Operand::Register(of) = *value {
                    self.copies.push((*into, of, worth))?;
                }
                Ok(false)
            }
            _ => Ok(false),
        }
    }

    /// Nothing is known yet.
    fn empty(alloc: Global, registers: usize) -> Result<Uses, Memory> {
        Ok(Uses {
            saves: vec![in alloc; 0u64; registers]?,
            comes: vec![in alloc; 0u32; registers]?,
            spoils: vec![in alloc; 0u32; 1]?,
            passed: vec![in alloc; false; registers]?,
            copies: Vec::new(alloc),
        })
    }

    /// A block, before which so many instructions take the result register; answers how many do before the next one.
    fn read_block(&mut self, block: &Block, worth: u64, before: u32) -> Result<u32, Memory> {
        let mut spoils = before;
        for instr in &block.code {
            if self.read(instr, worth)? {
                spoils = spoils.wrapping_add(1);
            }
            self.spoils.push(spoils)?;
        }
        if let End::Return { value } = block.end {
            self.go(value, worth);
        }
        self.spoils.push(spoils)?;
        Ok(spoils)
    }

    fn new(alloc: Global, function: &Function) -> Result<Uses, Memory> {
        let mut uses = Uses::empty(alloc, function.registers as usize)?;
        for register in &function.parameters {
            set(&mut uses.passed, *register, true);
        }
        let worths = worths(alloc, function)?;
        let mut spoils = 0u32;
        for (number, block) in function.blocks.iter().enumerate() {
            spoils = uses.read_block(block, worth_in(&worths, number), spoils)?;
        }
        Ok(uses)
    }

    /// Whether nothing takes the result register within the interval but what gives the register its value.
    fn may(&self, each: Lasting) -> bool {
        if is_set(&self.passed, each.register) {
            return false;
        }
        let before = at(&self.spoils, each.first);
        let behind = at(&self.spoils, each.last.wrapping_add(1));
        behind.wrapping_sub(before) == at(&self.comes, each.register as usize)
    }
}

/// Whether it is worth more than the last one that is chosen, or lies behind it.
fn is_better(weights: &[u64], each: Lasting, last: Option<Lasting>) -> bool {
    let worth = weight(weights, each.register);
    match last {
        None => worth > 0,
        Some(last) => {
            if last.last < each.first {
                worth > 0
            } else {
                worth > weight(weights, last.register)
            }
        }
    }
}

fn give_up(chosen: &mut [bool], each: Lasting, last: Option<Lasting>) {
    if let Some(last) = last {
        if last.last >= each.first {
            set(chosen, last.register, false);
        }
    }
}

/// Some of intervals in order that are apart from each other, those that are worth most.
fn chosen(
    alloc: Global,
    order: &[Lasting],
    weights: &[u64],
    registers: usize,
) -> Result<Vec<bool>, Memory> {
    let mut chosen = vec![in alloc; false; registers]?;
    let mut last = None;
    for each in order {
        if is_better(weights, *each, last) {
            give_up(&mut chosen, *each, last);
            set(&mut chosen, each.register, true);
            last = Some(*each);
        }
    }
    Ok(chosen)
}

/// Those of some intervals that may have the result register.
fn able(alloc: Global, order: &[Lasting], uses: &Uses) -> Result<Vec<Lasting>, Memory> {
    let mut able = Vec::new(alloc);
    for each in order {
        if uses.may(*each) {
            able.push(*each)?;
        }
    }
    Ok(able)
}

/// How much a register is worth there by itself.
fn own_weight(uses: &Uses, tastes: &Tastes, register: u32) -> u64 {
    let saves = weight(&uses.saves, register).saturating_mul(SCALE);
    if tastes.is_plain(register) {
        saves.saturating_add(1)
    } else {
        saves
    }
}

/// By register, how much it is worth there, where those that are picked are there.
fn weights(
    alloc: Global,
    uses: &Uses,
    tastes: &Tastes,
    able: &[Lasting],
    picked: &[bool],
) -> Result<Vec<u64>, Memory> {
    let mut weights = vec![in alloc; 0u64; picked.len()]?;
    for each in able {
        add(
            &mut weights,
            each.register,
            own_weight(uses, tastes, each.register),
        );
    }
    for copy in &uses.copies {
        let (into, of, worth) = *copy;
        let saves = worth.saturating_mul(SCALE);
        if is_set(picked, into) {
            add(&mut weights, of, saves);
        }
        if is_set(picked, of) {
            add(&mut weights, into, saves);
        }
    }
    Ok(weights)
}

/// By register, whether it is best in the result register.
pub fn in_result(
    alloc: Global,
    function: &Function,
    order: &[Lasting],
    tastes: &Tastes,
) -> Result<Vec<bool>, Memory> {
    let registers = function.registers as usize;
    let uses = Uses::new(alloc, function)?;
    let able = able(alloc, order, &uses)?;
    let mut picked = vec![in alloc; false; registers]?;
    for _ in 0..ROUNDS {
        let weights = weights(alloc, &uses, tastes, able.as_slice(), picked.as_slice())?;
        picked = chosen(alloc, able.as_slice(), weights.as_slice(), registers)?;
    }
    Ok(picked)
}
