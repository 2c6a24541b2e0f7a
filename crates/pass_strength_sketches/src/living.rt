// Sets of registers that grow and shrink along code.
use super::acts::nexts;
use super::tables::{flag_at, list_at, number_at, set_flag, set_number};
use low_ir::End;
use std::alloc::Global;
use wcc_base::Memory;

/// Tables by register, as large as they will ever be, so that nothing is allocated as code goes by.
#[derive(Drop)]
pub struct Living {
    /// Whether it is in the set.
    flags: Vec<bool>,
    /// Whether it was since the set was taken last.
    listed: Vec<bool>,
    /// Those that were, and behind them what is left of earlier ones.
    list: Vec<u32>,
    /// How many were.
    length: usize,
    count: u32,
    /// How many were in it together.
    most: u32,
}

impl Living {
    /// None of so many registers.
    pub fn new(alloc: Global, registers: u32) -> Result<Living, Memory> {
        let registers = registers as usize;
        Ok(Living {
            flags: vec![in alloc; false; registers]?,
            listed: vec![in alloc; false; registers]?,
            list: vec![in alloc; 0u32; registers]?,
            length: 0,
            count: 0,
            most: 0,
        })
    }

    pub fn has(&self, register: u32) -> bool {
        flag_at(&self.flags, register as usize)
    }

    pub fn most(&self) -> u32 {
        self.most
    }

    fn note(&mut self, register: u32) {
        if !flag_at(&self.listed, register as usize) {
            set_flag(&mut self.listed, register as usize, true);
            set_number(&mut self.list, self.length, register);
            self.length = self.length.wrapping_add(1);
        }
    }

    pub fn add(&mut self, register: u32) {
        if (register as usize) < self.flags.len() && !self.has(register) {
            set_flag(&mut self.flags, register as usize, true);
            self.count = self.count.saturating_add(1);
            self.most = self.most.max(self.count);
            self.note(register);
        }
    }

    pub fn add_some(&mut self, register: Option<u32>) {
        if let Some(register) = register {
            self.add(register);
        }
    }

    pub fn add_all(&mut self, registers: &[u32]) {
        for register in registers {
            self.add(*register);
        }
    }

    pub fn remove(&mut self, register: u32) {
        if self.has(register) {
            set_flag(&mut self.flags, register as usize, false);
            self.count = self.count.saturating_sub(1);
        }
    }

    /// Whether the register at a place of the list is in the set; it isn't any more then.
    fn leave(&mut self, register: u32) -> bool {
        let is_in = self.has(register);
        set_flag(&mut self.flags, register as usize, false);
        set_flag(&mut self.listed, register as usize, false);
        is_in
    }

    /// The registers in it. It is empty then.
    pub fn take(&mut self, alloc: Global) -> Result<Vec<u32>, Memory> {
        let mut all = Vec::new(alloc);
        for at in 0..self.length {
            let register = number_at(&self.list, at);
            if self.leave(register) {
                all.push(register)?;
            }
        }
        self.length = 0;
        self.count = 0;
        self.most = 0;
        Ok(all)
    }
}

/// What is live behind the code of a block.
pub fn lead_on(living: &mut Living, lists: &[Vec<u32>], end: End) {
    for next in nexts(end) {
        if let Some(next) = next {
            living.add_all(list_at(lists, next as usize));
        }
    }
}
