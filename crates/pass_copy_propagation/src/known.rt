// Where values stand, as the code of a block is made.
ghost use Rattle.std.specs.Prelude.{◌≡◌, ◌<◌, true, false, length, None, IfOk, slice_index_or, slice_set};
ghost use Rattle.pass_copy_propagation.specs.Knowing.{copied, delivered, forgotten, if_still, opened, parted, stands, unknown};

use std::alloc::Global;
use std::marker::Model;
use wcc_base::Memory;

/// What is known of each register. Times are counted from block to block, so that nothing has to be cleared for the next one.
#[derive(Drop)]
pub struct Known {
    /// Whether blocks count on it at their beginning.
    lasting: Vec<bool>,
    /// The register in which its value stands.
    places: Vec<u32>,
    /// Since when it stands there.
    times: Vec<u64>,
    /// When it was written last.
    written: Vec<u64>,
    /// When the block began.
    began: u64,
    clock: u64,
}

impl Model for Known {
    ghost use Rattle.pass_copy_propagation.specs.Knowing.{Knowing};

    ghost Value = { Knowing };

    ghost view = { λ k. record { lasting = k.lasting.items; places = k.places.items; times = k.times.items; written = k.written.items; began = k.began; clock = k.clock } };
}

fn number_at(numbers: &[u32], at: usize) -> u32
    ensures { result ≡ slice_index_or numbers.now at 0 }
{
    match numbers.get(at) {
        None => 0,
        Some(number) => *number,
    }
}

fn time_at(times: &[u64], at: usize) -> u64
    ensures { result ≡ slice_index_or times.now at 0 }
{
    match times.get(at) {
        None => 0,
        Some(time) => *time,
    }
}

fn is_at(flags: &[bool], at: usize) -> bool
    ensures { result ≡ slice_index_or flags.now at false }
{
    match flags.get(at) {
        None => false,
        Some(flag) => *flag,
    }
}

fn set_number(numbers: &mut Vec<u32>, at: usize, new: u32)
    ensures { numbers.new.items ≡ slice_set numbers.old.items at new }
{
    if let Some(number) = numbers.get_mut(at) {
        *number = new;
    }
}

fn set_time(times: &mut Vec<u64>, at: usize, new: u64)
    ensures { times.new.items ≡ slice_set times.old.items at new }
{
    if let Some(time) = times.get_mut(at) {
        *time = new;
    }
}

impl Known {
    /// Nothing is known, of so many registers.
    pub fn new(alloc: Global, lasting: Vec<bool>, registers: u32) -> Result<Known, Memory>
        ensures { IfOk result (λ k. k ≡ unknown lasting.items registers) }
    {
        let places = vec![in alloc; 0u32; registers as usize]?;
        let times = vec![in alloc; 0u64; registers as usize]?;
        let written = vec![in alloc; 0u64; registers as usize]?;
        Ok(Known {
            lasting,
            places,
            times,
            written,
            began: 1,
            clock: 1,
        })
    }

    /// A block begins.
    pub fn open(&mut self)
        ensures { self.new ≡ opened self.old }
    {
        self.began = self.clock;
    }

    /// Whether blocks count on a register at their beginning.
    pub fn is_lasting(&self, register: u32) -> bool
        ensures { result ≡ slice_index_or self.now.lasting register false }
    {
        is_at(&self.lasting, register as usize)
    }

    /// A register, if a value stands in it still.
    fn if_still(&self, place: u32, time: u64) -> Option<u32>
        ensures { result ≡ if_still self.now place time }
    {
        if self.began <= time && time_at(&self.written, place as usize) <= time {
            Some(place)
        } else {
            None
        }
    }

    /// The register in which the value of a register stands.
    pub fn find(&self, register: u32) -> Option<u32>
        ensures { result ≡ stands self.now register }
    {
        if self.is_lasting(register) {
            Some(register)
        } else {
            let at = register as usize;
            self.if_still(number_at(&self.places, at), time_at(&self.times, at))
        }
    }

    /// The value of a register was written to another one, or to itself, where that has its own value too.
    pub fn deliver(&mut self, register: u32, place: u32) -> bool
        ensures known { result ≡ true → self.new ≡ delivered self.old register place }
        ensures few { result ≡ true → place < length self.old.written }
        ensures own { result ≡ true → register < length self.old.places }
    {
        let Some(next) = self.clock.checked_add(1) else {
            return false;
        };
        if place as usize >= self.written.len() {
            return false;
        }
        if register as usize >= self.places.len() {
            return false;
        }
        set_number(&mut self.places, place as usize, place);
        set_number(&mut self.places, register as usize, place);
        set_time(&mut self.times, place as usize, self.clock);
        set_time(&mut self.times, register as usize, self.clock);
        set_time(&mut self.written, place as usize, self.clock);
        self.clock = next;
        true
    }

    /// The value of a register was written to another one alone.
    pub fn part(&mut self, register: u32, place: u32) -> bool
        ensures known { result ≡ true → self.new ≡ parted self.old register place }
        ensures few { result ≡ true → place < length self.old.written }
        ensures own { result ≡ true → register < length self.old.places }
    {
        let now = self.clock;
        let Some(next) = now.checked_add(1) else {
            return false;
        };
        if place as usize >= self.written.len() {
            return false;
        }
        if register as usize >= self.places.len() {
            return false;
        }
        set_number(&mut self.places, register as usize, place);
        set_time(&mut self.times, register as usize, now);
        set_time(&mut self.written, place as usize, now);
        self.clock = next;
        true
    }

    /// The value of a register stands nowhere any more.
    pub fn forget(&mut self, register: u32) -> bool
        ensures known { self.new ≡ forgotten self.old register }
        ensures nowhere { result ≡ true → stands self.new register ≡ None }
    {
        set_time(&mut self.times, register as usize, 0);
        self.find(register).is_none()
    }

    /// A register is a copy of what stands in another one.
    pub fn copy(&mut self, register: u32, place: u32) -> bool
        ensures known { result ≡ true → self.new ≡ copied self.old register place }
        ensures own { result ≡ true → register < length self.old.places }
    {
        let Some(next) = self.clock.checked_add(1) else {
            return false;
        };
        if register as usize >= self.places.len() {
            return false;
        }
        set_number(&mut self.places, register as usize, place);
        set_time(&mut self.times, register as usize, self.clock);
        self.clock = next;
        true
    }
}
