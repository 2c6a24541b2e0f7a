// The memory.
ghost use Rattle.std.specs.Prelude.{◌≡◌, IfOk, Some};
ghost use Rattle.rv_core.specs.declared.row.Width.{Width};
ghost use Rattle.rv_core.specs.Images.{AreSegments};
ghost use Rattle.rv_core.specs.Memory.{Block, loaded, read_from, written_to};
ghost use Rattle.rv_core.specs.Machine.{fetched};

use crate::block::Block;
use crate::fetching::fetch_from;
use rv_core::{Instr, Region, Segment, Width};
use std::alloc::Global;
use std::marker::Model;
use wcc_base::Memory;

/// The instruction of a word of code, if a row of the table matches it, and the word's region.
#[derive(Drop)]
pub struct Fetched {
    pub instr: Option<Instr>,
    pub region: Region,
}

/// A number that was loaded, and the region that it was loaded from.
#[derive(Drop)]
pub struct Found {
    pub number: u32,
    pub region: Region,
}

/// The block that takes a store, by its number, and its region.
#[derive(Drop)]
pub struct Place {
    index: usize,
    pub region: Region,
}

/// The blocks of a memory.
#[derive(Drop)]
pub struct Blocks {
    blocks: Vec<Block>,
}

impl Model for Blocks {
    ghost use Rattle.std.specs.Prelude.{List};
    ghost use Rattle.rv_core.specs.Memory.{Block};

    ghost Value = { List Block };

    ghost view = { λ m. m.blocks.items };
}

impl Blocks {
    ghost use Rattle.rv_sim.specs.Lookups.{Fetches, Finds, IsPlace, Places};

    /// The memory that segments fill.
    pub fn load(alloc: Global, segments: &[Segment]) -> Result<Self, Memory>
        requires { AreSegments segments.now }
        ensures { IfOk result (λ m. m ≡ loaded segments.now) }
    {
        let mut blocks = Vec::new(alloc);
        for segment in segments {
            blocks.push(Block::new(alloc, segment)?)?;
        }
        Ok(Blocks { blocks })
    }

    /// The instruction at an address, where a whole aligned word of code stands.
    pub fn fetch(&self, pc: u32) -> Option<Fetched>
        ensures { Fetches (fetched self.now pc) pc result }
    {
        if pc % 4 == 0 {
            fetch_from(&self.blocks, pc)
        } else {
            None
        }
    }

    /// The number at an address, where it lies wholly in one readable block.
    pub fn read(&self, width: Width, at: u32) -> Option<Found>
        ensures { Finds width (read_from (λ b. b.read) width self.now at) at result }
    {
        for block in &self.blocks {
            if block.is_read() && block.holds(at, width.byte_count()) {
                let number = block.number(width, at);
                let region = block.region();
                return Some(Found { number, region });
            }
        }
        None
    }

    /// Where a store of this width at an address goes, if a block may be written and holds it.
    pub fn place(&self, width: Width, at: u32) -> Option<Place>
        ensures { Places width at self.now result }
    {
        for (index, block) in self.blocks.iter().enumerate() {
            if block.is_written() && block.holds(at, width.byte_count()) {
                let region = block.region();
                return Some(Place { index, region });
            }
        }
        None
    }

    /// Puts the low bytes of a word at an address.
    pub fn put(&mut self, place: &Place, width: Width, at: u32, word: u32)
        requires { IsPlace width at self.old place.now }
        ensures { written_to width self.old at word ≡ Some self.new }
    {
        let block = &mut self.blocks[place.index];
        block.put(width, at, word);
    }
}
