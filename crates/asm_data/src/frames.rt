// Where the code finds what a program keeps in memory.
ghost use Rattle.std.specs.Prelude.{◌≡◌, ◌+◌, ◌<◌, ◌≤◌, ◌^◌, length};
ghost use Rattle.asm_program.specs.Frames.{frame_of, home_at, object_at, position, saved_at, slot_at};
ghost use Rattle.asm_data.specs.Saving.{AreFew};

use std::alloc::Global;
use std::marker::Model;

/// The frame of a function: its address, the registers that the function saves for its callers, those
/// that have a word in it for the time of a call or for arguments, and how many slots it has. A register
/// is a number below 24.
#[derive(Drop)]
pub struct Frame {
    at: u32,
    saved: Vec<u8>,
    homes: Vec<u8>,
    slots: u32,
}

impl Model for Frame {
    ghost use Rattle.asm_program.specs.Frames.{Frame as Framed};
    ghost use Rattle.asm_data.specs.Saving.{AreFew};

    ghost Value = { Framed };

    ghost view = { λ f. record { at = f.at; saved = f.saved.items; homes = f.homes.items; slots = f.slots } };

    ghost invariant = { λ f. AreFew f.saved.items f.homes.items };
}

/// How many registers of a list stand before a register.
fn position(registers: &[u8], register: u8) -> usize
    ensures value { result ≡ position registers.now register }
    ensures most { result ≤ length registers.now }
{
    for (index, other) in registers.iter().enumerate() {
        if *other == register {
            return index;
        }
    }
    registers.len()
}

impl Frame {
    /// A frame; it saves registers below 24.
    pub fn new(at: u32, saved: Vec<u8>, homes: Vec<u8>, slots: u32) -> Frame
        requires { AreFew saved.items homes.items }
        ensures { result ≡ record { at = at; saved = saved.items; homes = homes.items; slots = slots } }
    {
        Frame {
            at,
            saved,
            homes,
            slots,
        }
    }

    /// Its address in RAM.
    pub fn at(&self) -> u32
        ensures { result ≡ self.now.at }
    {
        self.at
    }

    /// The registers that the function saves.
    pub fn saved(&self) -> &[u8]
        ensures value { result.now ≡ self.now.saved }
        ensures few { AreFew self.now.saved self.now.homes }
    {
        self.saved.as_slice()
    }

    /// The address of the word to which a register is saved.
    pub fn saved_at(&self, register: u8) -> u64
        ensures value { result ≡ saved_at self.now register }
        ensures small { result < 2 ^ 36 }
    {
        let place = position(self.saved.as_slice(), register) as u64;
        u64::from(self.at()) + 4 * (1 + place)
    }

    /// The address of the word that a register has for the time of a call.
    pub fn home_at(&self, register: u8) -> u64
        ensures value { result ≡ home_at self.now register }
        ensures small { result < 2 ^ 36 }
    {
        let place = position(self.homes.as_slice(), register) as u64;
        u64::from(self.at()) + 4 * (1 + self.saved.len() as u64 + place)
    }

    /// The address of a slot.
    pub fn slot_at(&self, slot: u32) -> u64
        ensures value { result ≡ slot_at self.now slot }
        ensures small { result < 2 ^ 36 }
    {
        let words = self.saved.len() as u64 + self.homes.len() as u64;
        u64::from(self.at()) + 4 * (1 + words + u64::from(slot))
    }
}

/// Where everything lies: the frame of each function and the address of each array, by their numbers, and the address
/// that the second base holds.
#[derive(Drop)]
pub struct Data {
    frames: Vec<Frame>,
    /// The frame of a function that has none.
    none: Frame,
    objects: Vec<u32>,
    second: u32,
}

impl Model for Data {
    ghost use Rattle.std.specs.Prelude.{◌≡◌};
    ghost use Rattle.asm_program.specs.Frames.{Memory, no_frame};

    ghost Value = { Memory };

    ghost view = { λ d. record { frames = d.frames.items; objects = d.objects.items; second = d.second } };

    ghost invariant = { λ d. d.none ≡ no_frame };
}

impl Data {
    pub fn new(alloc: Global, frames: Vec<Frame>, objects: Vec<u32>, second: u32) -> Data
        ensures { result ≡ record { frames = frames.items; objects = objects.items; second = second } }
    {
        let none = Frame::new(0, Vec::new(alloc), Vec::new(alloc), 0);
        Data {
            frames,
            none,
            objects,
            second,
        }
    }

    /// The frame of a function.
    pub fn frame(&self, function: usize) -> &Frame
        ensures { result.now ≡ frame_of self.now function }
    {
        match self.frames.get(function) {
            Some(frame) => frame,
            None => &self.none,
        }
    }

    /// The address of an array, or 0 where there is none.
    pub fn object_at(&self, object: u32) -> u32
        ensures { result ≡ object_at self.now object }
    {
        match self.objects.get(object as usize) {
            Some(at) => *at,
            None => 0,
        }
    }

    /// The address that the second base holds, or 0.
    pub fn second(&self) -> u32
        ensures { result ≡ self.now.second }
    {
        self.second
    }
}
