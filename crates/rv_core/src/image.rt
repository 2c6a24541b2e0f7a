// What the machine is loaded with.
ghost use Rattle.std.specs.Prelude.{◌≡◌};
ghost use Rattle.rv_core.specs.Images.{AreLoadable};

use std::marker::Model;
use wcc_base::Items;

/// A part of the memory: its bytes, and zeros up to its size.
#[derive(Drop)]
pub struct Segment {
    /// The address of its first byte.
    pub at: u32,
    pub bytes: Items<u8>,
    /// How many bytes it takes in memory.
    pub size: u32,
    pub read: bool,
    pub write: bool,
    pub exec: bool,
}

/// Where a run begins, and what is loaded before it: at most 16 segments in ascending order,
/// each within one region, of which no two share an address.
#[derive(Drop)]
pub struct Image {
    entry: u32,
    segments: Items<Segment>,
}

impl Model for Image {
    ghost use Rattle.rv_core.specs.Images.{Image, AreLoadable};

    ghost Value = { Image };

    ghost view = { λ i. record { entry = i.entry; segments = i.segments } };

    ghost invariant = { λ i. AreLoadable i.segments };
}

impl Image {
    /// The image of these segments.
    pub fn new(entry: u32, segments: Vec<Segment>) -> Self
        requires { AreLoadable segments.items }
        ensures { result ≡ record { entry = entry; segments = segments.items } }
    {
        Image {
            entry,
            segments: Items::new(segments),
        }
    }

    /// The address of the first instruction.
    pub fn entry(&self) -> u32
        ensures { result ≡ self.now.entry }
    {
        self.entry
    }

    /// The segments, in ascending order of their addresses.
    pub fn segments(&self) -> &[Segment]
        ensures value { result.now ≡ self.now.segments }
        ensures valid { AreLoadable result.now }
    {
        self.segments.as_slice()
    }
}
