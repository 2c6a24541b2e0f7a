// The registers.
ghost use Rattle.std.specs.Prelude.{◌≡◌, ◌<◌, replicate};
ghost use Rattle.rv_core.specs.Machine.{register_of, with_register};

use std::marker::Model;

/// The 32 registers. x0 is always 0.
#[derive(Drop)]
pub struct Registers {
    words: [u32; 32],
}

impl Model for Registers {
    ghost use Rattle.std.specs.Prelude.{ℕ, ◌≡◌, List, length, slice_index};

    ghost Value = { List ℕ };

    ghost view = { λ r. r.words };

    ghost invariant = { λ r. (length r.words ≡ 32) × (slice_index r.words 0 ≡ 0) };
}

impl Registers {
    /// All registers 0.
    pub fn new() -> Self
        ensures { result ≡ replicate 32 0 }
    {
        Registers { words: [0; 32] }
    }

    /// The word of a register.
    pub fn get(&self, register: u8) -> u32
        requires { register < 32 }
        ensures { result ≡ register_of self.now register }
    {
        self.words[register as usize]
    }

    /// Puts a word into a register, but for x0.
    pub fn set(&mut self, register: u8, word: u32)
        requires { register < 32 }
        ensures { self.new ≡ with_register self.old register word }
    {
        if register != 0 {
            self.words[register as usize] = word;
        }
    }
}
