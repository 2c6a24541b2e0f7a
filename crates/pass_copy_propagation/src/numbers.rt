// Registers of their own for values that live in one block. Nothing is proved of it: whoever gets none keeps its register.
use super::reading::{Reader, read_end, read_instr};
use low_ir::Function;
use low_ir::instruction::{Instr, Operand};
use low_parts::accesses::written;
use std::alloc::Global;
use wcc_base::Memory;

/// How many registers stay that are named nowhere, for passes that want some.
const SPARE: u32 = 16;

/// What a function names.
#[derive(Drop)]
struct Named {
    /// By register, whether it is named.
    is: Vec<bool>,
    /// By register, how many instructions write it, as which parameters count.
    writes: Vec<u32>,
}

/// The registers that a function names nowhere, which are taken one by one, the first one first.
#[derive(Drop)]
pub struct Numbers {
    writes: Vec<u32>,
    left: Vec<u32>,
}

impl Reader for Named {
    fn read(&mut self, register: u32) -> Result<(), Memory> {
        self.name(register);
        Ok(())
    }
}

impl Named {
    fn name(&mut self, register: u32) {
        if let Some(is) = self.is.get_mut(register as usize) {
            *is = true;
        }
    }

    fn write(&mut self, register: u32) {
        self.name(register);
        if let Some(writes) = self.writes.get_mut(register as usize) {
            *writes = writes.saturating_add(1);
        }
    }

    fn instr(&mut self, instr: &Instr) -> Result<(), Memory> {
        if let Some(register) = written(instr) {
            self.write(register);
        }
        read_instr(self, instr)
    }

    fn of(alloc: Global, function: &Function, registers: u32) -> Result<Named, Memory> {
        let mut named = Named {
            is: vec![in alloc; false; registers as usize]?,
            writes: vec![in alloc; 0u32; registers as usize]?,
        };
        for register in &function.parameters {
            named.write(*register);
        }
        for block in &function.blocks {
            for instr in &block.code {
                named.instr(instr)?;
            }
            read_end(&mut named, block.end)?;
        }
        Ok(named)
    }
}

fn is_at(flags: &[bool], register: u32) -> bool {
    match flags.get(register as usize) {
        None => true,
        Some(flag) => *flag,
    }
}

/// How many values a register has, if it has several.
fn values_of(writes: &[u32], register: u32) -> u32 {
    match writes.get(register as usize) {
        None => 0,
        Some(writes) => { if *writes < 2 { 0 } else { *writes } }
    }
}

/// Whether an instruction gives a word, and no pointer, which has to keep its register, nor a copy.
pub fn gives_word(instr: &Instr) -> bool {
    match instr {
        Instr::Set { value, .. } => match *value {
            Operand::Register(_) => false,
            Operand::Constant(_) => true,
        },
        Instr::Operate { .. } => true,
        Instr::Load { .. } => true,
        Instr::Get { .. } => true,
        Instr::Call { .. } => true,
        _ => false,
    }
}

/// How many registers more a function wants that has so many: one for each value of those that have several values.
pub fn wanted(alloc: Global, function: &Function) -> Result<u32, Memory> {
    let Named { is, writes } = Named::of(alloc, function, function.registers)?;
    let mut wanted = SPARE;
    let mut left = 0u32;
    for register in 0..function.registers {
        if is_at(&is, register) {
            wanted = wanted.saturating_add(values_of(&writes, register));
        } else {
            left = left.saturating_add(1);
        }
    }
    Ok(wanted.saturating_sub(left))
}

impl Numbers {
    /// Those of a function that may have so many registers.
    pub fn of(alloc: Global, function: &Function, registers: u32) -> Result<Numbers, Memory> {
        let Named { is, writes } = Named::of(alloc, function, registers)?;
        let mut left = Vec::new(alloc);
        for register in (0..registers).rev() {
            if !is_at(&is, register) {
                left.push(register)?;
            }
        }
        Ok(Numbers { writes, left })
    }

    /// One for a value of a register, if that has other values too and one is left.
    pub fn next(&mut self, register: u32) -> Option<u32> {
        if values_of(&self.writes, register) == 0 {
            None
        } else {
            self.left.pop()
        }
    }
}
