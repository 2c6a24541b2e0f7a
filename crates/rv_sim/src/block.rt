// A block of the memory.
ghost use Rattle.std.specs.Prelude.{◌≡◌, ◌≢◌, ◌+◌, ◌-◌, ◌%◌, ◌<◌, ◌≤◌, ◌^◌, ◌*◌, length, IsTrue, IfOk};
ghost use Rattle.rv_core.specs.declared.regions.Region.{Region};
ghost use Rattle.rv_core.specs.declared.row.Width.{Width};
ghost use Rattle.rv_core.specs.Words.{decode_of};
ghost use Rattle.rv_core.specs.Images.{IsSegment};
ghost use Rattle.rv_core.specs.Arithmetic.{byte_count};
ghost use Rattle.rv_sim.specs.Blocks.{IsRegionOf, LieIn, IsKept};
ghost use Rattle.rv_core.specs.Memory.{Block, block_of, holds_span, number_at, with_number};

use crate::code::decoded;
use crate::numbers::{number_at, put_number};
use rv_core::{Instr, Region, Segment, Width};
use std::alloc::Global;
use std::marker::Model;
use wcc_base::Memory;

/// A segment as it is loaded. The instructions of its aligned words are decoded once, since what
/// can be executed is never written.
#[derive(Drop)]
pub struct Block {
    at: u32,
    bytes: Vec<u8>,
    read: bool,
    write: bool,
    exec: bool,
    region: Region,
    code: Vec<Option<Instr>>,
}

impl Model for Block {
    ghost use Rattle.rv_core.specs.Memory.{Block};
    ghost use Rattle.rv_sim.specs.Blocks.{block, IsKept};

    ghost Value = { Block };

    ghost view = { λ b. block b.at b.bytes.items b.read b.write b.exec };

    ghost invariant = { λ b. IsKept (block b.at b.bytes.items b.read b.write b.exec) b.region b.code.items };
}

/// The region of a segment; any where it is empty.
fn region_of_segment(segment: &Segment) -> Region
    requires { IsSegment segment.now }
    ensures { 0 < segment.now.size → IsRegionOf segment.now result }
{
    rv_core::region(segment.at).unwrap_or(Region::Flash)
}

/// The bytes of a segment, then zeros.
fn filled(alloc: Global, segment: &Segment) -> Result<Vec<u8>, Memory>
    requires { length segment.now.bytes ≤ segment.now.size }
    ensures { IfOk result (λ bytes. bytes.items ≡ (block_of segment.now).bytes) }
{
    let mut bytes = Vec::with_capacity(alloc, segment.size as usize)?;
    bytes.extend_from_slice(segment.bytes.as_slice())?;
    bytes.resize(segment.size as usize, 0)?;
    Ok(bytes)
}

impl Block {
    /// The block of a segment.
    pub fn new(alloc: Global, segment: &Segment) -> Result<Self, Memory>
        requires { IsSegment segment.now }
        ensures { IfOk result (λ b. b ≡ block_of segment.now) }
    {
        let bytes = filled(alloc, segment)?;
        let region = region_of_segment(segment);
        let code = if segment.exec {
            decoded(alloc, segment.at, &bytes)?
        } else {
            Vec::new(alloc)
        };
        Ok(Block {
            at: segment.at,
            bytes,
            read: segment.read,
            write: segment.write,
            exec: segment.exec,
            region,
            code,
        })
    }

    /// Whether so many bytes from an address on lie in the block.
    pub fn holds(&self, at: u32, count: u32) -> bool
        ensures { result ≡ holds_span self.now at count }
    {
        self.at <= at && at as usize + count as usize <= self.at as usize + self.bytes.len()
    }

    pub fn is_read(&self) -> bool
        ensures { result ≡ self.now.read }
    {
        self.read
    }

    pub fn is_written(&self) -> bool
        ensures { result ≡ self.now.write }
    {
        self.write
    }

    pub fn is_executed(&self) -> bool
        ensures { result ≡ self.now.exec }
    {
        self.exec
    }

    /// The region in which the block lies.
    pub fn region(&self) -> Region
        ensures lies { 0 < length self.now.bytes → LieIn result self.now }
        ensures never_ram { IsTrue self.now.exec → 0 < length self.now.bytes → result ≢ Region.Ram }
    {
        self.region
    }

    /// The instruction of the word at an address, if a row of the table matches it.
    pub fn instruction(&self, pc: u32) -> Option<Instr>
        requires executed { IsTrue self.now.exec }
        requires aligned { pc % 4 ≡ 0 }
        requires within { IsTrue (holds_span self.now pc 4) }
        ensures { result ≡ decode_of (number_at Width.Word self.now.bytes (pc - self.now.at)) }
    {
        self.code[pc as usize / 4 - (self.at as usize + 3) / 4]
    }

    /// The number at an address.
    pub fn number(&self, width: Width, at: u32) -> u32
        requires { IsTrue (holds_span self.now at (byte_count width)) }
        ensures value { result ≡ number_at width self.now.bytes (at - self.now.at) }
        ensures small { result < 2 ^ (8 * byte_count width) }
    {
        number_at(width, &self.bytes, (at - self.at) as usize)
    }

    /// Puts the low bytes of a word at an address.
    pub fn put(&mut self, width: Width, at: u32, word: u32)
        requires written { IsTrue self.old.write }
        requires within { IsTrue (holds_span self.old at (byte_count width)) }
        ensures { self.new ≡ record self.old { bytes = with_number width self.old.bytes (at - self.old.at) word } }
    {
        let place = (at - self.at) as usize;
        put_number(width, &mut self.bytes, place, word);
    }
}
