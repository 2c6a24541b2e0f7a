// A walk backward from the reads of one register.
ghost use Rattle.std.specs.Prelude.{◌≡◌, ◌<◌, ◌+◌, length, IfOk, OnOk, slice_index_or, slice_set};
ghost use Rattle.register_live_ranges.specs.Found.{IsFound, IsReading};
ghost use Rattle.register_live_ranges.specs.Walks.{IsFresh, all_left, all_taken, fresh, is_live, is_touched, latest_in, left, lived, met, no_latest, no_register, noted, opened, read, restarted, seen, taken, touched};

use super::accesses::{Access, accesses_in};
use super::interval::{Interval, widened};
use super::reading::Reading;
use super::sources::{Source, sources_in};
use std::alloc::Global;
use std::marker::Model;
use wcc_base::Memory;

/// The number of no register.
const NO_REGISTER: u32 = 0xffff_ffff;

/// Where a register was accessed last.
#[derive(Clone, Copy)]
pub struct Latest {
    pub register: u32,
    pub at: usize,
}

/// What is known on the walk. The tables by block have the number of the register for which they were written last, so that
/// they need not be cleared for the next one.
#[derive(Drop)]
pub struct Walk {
    /// By block, the register that is live at its beginning.
    live: Vec<u32>,
    /// By block, its last access so far.
    latest: Vec<Latest>,
    /// The blocks at whose beginning it is live and that are still to be left for those that lead to them.
    work: Vec<usize>,
    /// Its places so far.
    found: Option<Interval>,
}

impl Model for Walk {
    ghost use Rattle.register_live_ranges.specs.Walks.{Walk as Walked};

    ghost Value = { Walked };

    ghost view = { λ w. record { live = w.live.items; latest = w.latest.items; work = w.work.items; found = w.found } };
}

fn latest_at(latest: &[Latest], block: usize) -> Latest
    ensures { result ≡ slice_index_or latest.now block no_latest }
{
    match latest.get(block) {
        None => Latest {
            register: NO_REGISTER,
            at: 0,
        },
        Some(latest) => *latest,
    }
}

fn live_at(live: &[u32], block: usize) -> u32
    ensures { result ≡ slice_index_or live.now block no_register }
{
    match live.get(block) {
        None => NO_REGISTER,
        Some(live) => *live,
    }
}

fn set_latest(latest: &mut Vec<Latest>, block: usize, new: Latest)
    ensures { latest.new.items ≡ slice_set latest.old.items block new }
{
    if let Some(latest) = latest.get_mut(block) {
        *latest = new;
    }
}

fn set_live(live: &mut Vec<u32>, block: usize, register: u32)
    ensures { live.new.items ≡ slice_set live.old.items block register }
{
    if let Some(live) = live.get_mut(block) {
        *live = register;
    }
}

impl Walk {
    /// Nothing is known, of so many blocks.
    pub fn new(alloc: Global, blocks: usize) -> Result<Walk, Memory>
        ensures { IfOk result (λ w. w ≡ fresh blocks) }
    {
        let none = Latest {
            register: NO_REGISTER,
            at: 0,
        };
        let live = vec![in alloc; NO_REGISTER; blocks]?;
        let latest = vec![in alloc; none; blocks]?;
        Ok(Walk {
            live,
            latest,
            work: Vec::new(alloc),
            found: None,
        })
    }

    fn is_live(&self, register: u32, block: usize) -> bool
        ensures { result ≡ is_live register self.now block }
    {
        live_at(&self.live, block) == register
    }

    fn is_touched(&self, register: u32, block: usize) -> bool
        ensures { result ≡ is_touched register self.now block }
    {
        latest_at(&self.latest, block).register == register
    }

    /// Where the register was accessed last in a block; at first, where the block begins.
    fn latest_in(&self, register: u32, block: usize, first: usize) -> usize
        ensures { result ≡ latest_in register self.now block first }
    {
        let latest = latest_at(&self.latest, block);
        if latest.register == register {
            latest.at
        } else {
            first
        }
    }

    fn note(&mut self, at: usize)
        ensures { self.new ≡ noted at self.old }
    {
        self.found = Some(widened(self.found, at));
    }

    fn see(&mut self, register: u32, block: usize) -> Result<(), Memory>
        ensures { OnOk result (self.new ≡ seen register block self.old) }
    {
        if self.is_live(register, block) {
            return Ok(());
        }
        set_live(&mut self.live, block, register);
        self.work.push(block)?;
        Ok(())
    }

    fn touch(&mut self, register: u32, block: usize, at: usize)
        ensures { self.new ≡ touched register block at self.old }
    {
        set_latest(&mut self.latest, block, Latest { register, at });
    }

    fn open(&mut self, register: u32, access: Access) -> Result<(), Memory>
        ensures { OnOk result (self.new ≡ opened register access self.old) }
    {
        if self.is_touched(register, access.block) {
            return Ok(());
        }
        self.see(register, access.block)
    }

    fn live_between(&mut self, low: usize, high: usize)
        ensures { self.new ≡ lived low high self.old }
    {
        if low < high {
            self.note(low);
            self.note(high - 1);
        }
    }

    fn read(&mut self, register: u32, access: Access) -> Result<(), Memory>
        ensures { OnOk result (self.new ≡ read register access self.old) }
    {
        let low = self.latest_in(register, access.block, access.first);
        self.live_between(low, access.at);
        self.open(register, access)
    }

    fn meet(&mut self, register: u32, access: Access) -> Result<(), Memory>
        ensures { OnOk result (self.new ≡ met register access self.old) }
    {
        if access.writes {
            self.note(access.at);
            return Ok(());
        }
        self.read(register, access)
    }

    /// The next access of the register.
    fn take(&mut self, register: u32, access: Access) -> Result<(), Memory>
        ensures { OnOk result (self.new ≡ taken register access self.old) }
    {
        self.meet(register, access)?;
        self.touch(register, access.block, access.at);
        Ok(())
    }

    fn take_all(&mut self, register: u32, accesses: &[Access]) -> Result<(), Memory>
        ensures { OnOk result (self.new ≡ all_taken register accesses.now self.old) }
    {
        for access in accesses {
            self.take(register, *access)?;
        }
        Ok(())
    }

    /// The register is live behind a block that leads to one at whose beginning it is live.
    fn leave(&mut self, register: u32, source: Source) -> Result<(), Memory>
        ensures { OnOk result (self.new ≡ left register source self.old) }
    {
        let low = self.latest_in(register, source.block, source.first);
        self.note(low);
        self.note(source.last);
        if self.is_touched(register, source.block) {
            return Ok(());
        }
        self.see(register, source.block)
    }

    fn leave_all(&mut self, register: u32, sources: &[Source]) -> Result<(), Memory>
        ensures { OnOk result (self.new ≡ all_left register sources.now self.old) }
    {
        for source in sources {
            self.leave(register, *source)?;
        }
        Ok(())
    }

    fn restart(&mut self)
        ensures { self.new ≡ restarted self.old }
    {
        self.work.clear();
        self.found = None;
    }

    /// The interval of a register, but for its place as a parameter.
    pub fn interval(
        &mut self,
        reading: &Reading<'_>,
        register: u32,
    ) -> Result<Option<Interval>, Memory>
        requires reading { IsReading reading.now }
        requires register { register < reading.now.function.now.registers }
        requires fresh { IsFresh (length reading.now.function.now.blocks.items) register reading.now.function.now.registers self.old }
        ensures found { IfOk result (IsFound reading.now register) }
        ensures fresh { IfOk result (λ _. IsFresh (length reading.now.function.now.blocks.items) (register + 1) reading.now.function.now.registers self.new) }
    {
        self.restart();
        self.take_all(register, accesses_in(reading.accesses, register))?;
        while let Some(block) = self.work.pop() {
            self.leave_all(register, sources_in(reading.sources, block))?;
        }
        Ok(self.found)
    }
}
