// Counts of reads from which some are taken away to see what nothing reads then.
use pass_strength_sketches::tables::{flag_at, number_at, set_flag, set_number};
use std::alloc::Global;
use wcc_base::Memory;

/// How often registers are read, less what is taken away for a trial.
#[derive(Drop)]
pub struct Trial {
    /// By register, whether it is read less often than it was.
    changed: Vec<bool>,
    /// By register, how often it was read.
    before: Vec<u32>,
    /// Those that are read less often.
    list: Vec<u32>,
    length: usize,
    /// Those that nothing reads any more and that were not looked at.
    unread: Vec<u32>,
    first: usize,
    last: usize,
}

impl Trial {
    pub fn new(alloc: Global, registers: u32) -> Result<Trial, Memory> {
        let registers = registers as usize;
        Ok(Trial {
            changed: vec![in alloc; false; registers]?,
            before: vec![in alloc; 0u32; registers]?,
            list: vec![in alloc; 0u32; registers]?,
            length: 0,
            unread: vec![in alloc; 0u32; registers]?,
            first: 0,
            last: 0,
        })
    }

    fn note(&mut self, register: u32, reads: u32) {
        if !flag_at(&self.changed, register as usize) {
            set_flag(&mut self.changed, register as usize, true);
            set_number(&mut self.before, register as usize, reads);
            set_number(&mut self.list, self.length, register);
            self.length = self.length.wrapping_add(1);
        }
    }

    /// A register is read once less.
    pub fn read_less(&mut self, reads: &mut [u32], register: u32) {
        let count = number_at(reads, register as usize);
        if count > 0 {
            self.note(register, count);
            set_number(reads, register as usize, count.wrapping_sub(1));
            if count == 1 {
                set_number(&mut self.unread, self.last, register);
                self.last = self.last.wrapping_add(1);
            }
        }
    }

    /// The next register that nothing reads any more.
    pub fn next_unread(&mut self) -> Option<u32> {
        if self.first >= self.last {
            return None;
        }
        let register = number_at(&self.unread, self.first);
        self.first = self.first.wrapping_add(1);
        Some(register)
    }

    /// All as it was.
    pub fn restore(&mut self, reads: &mut [u32]) {
        for at in 0..self.length {
            let register = number_at(&self.list, at) as usize;
            set_flag(&mut self.changed, register, false);
            let before = number_at(&self.before, register);
            set_number(reads, register, before);
        }
        self.length = 0;
        self.first = 0;
        self.last = 0;
    }
}
