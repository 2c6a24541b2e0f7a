// The instructions of an image.
ghost use Rattle.std.specs.Prelude.{◌≡◌, ◌%◌, ◌+◌, ◌<◌, ◌≤◌, length, slice_index};
ghost use Rattle.rv_core.specs.declared.row.Width.{Width};
ghost use Rattle.rv_core.specs.Images.{AreSegments};
ghost use Rattle.rv_core.specs.Memory.{block_of, loaded, holds_span, number_at, read_from};
ghost use Rattle.rv_core.specs.Code.{instruction_in};

use crate::{Image, Instr, Segment, decode};

/// The byte of a segment at a place: zero behind those that it has.
fn byte(segment: &Segment, place: usize) -> u32
    requires { place < segment.now.size }
    ensures value { result ≡ slice_index (block_of segment.now).bytes place }
    ensures small { result < 256 }
{
    match segment.bytes.as_slice().get(place) {
        Some(byte) => u32::from(*byte),
        None => 0,
    }
}

/// The word of a segment at a place.
#[tactic(auto, unfolding(crate::specs::Memory::number_at))]
fn word(segment: &Segment, place: usize) -> u32
    requires { place + 4 ≤ segment.now.size }
    ensures { result ≡ number_at Width.Word (block_of segment.now).bytes place }
{
    let low = byte(segment, place) + 0x100 * byte(segment, place + 1);
    let third = 0x1_0000 * byte(segment, place + 2);
    low + third + 0x100_0000 * byte(segment, place + 3)
}

/// Whether a whole word lies in a segment from an address on.
fn holds_word(segment: &Segment, at: u32) -> bool
    requires { length segment.now.bytes ≤ segment.now.size }
    ensures { result ≡ holds_span (block_of segment.now) at 4 }
{
    segment.at <= at && at as usize + 4 <= segment.at as usize + segment.size as usize
}

/// The word of code at an address, where a segment that can be executed holds it.
fn code_word(segments: &[Segment], at: u32) -> Option<u32>
    requires { AreSegments segments.now }
    ensures { result ≡ read_from (λ b. b.exec) Width.Word (loaded segments.now) at }
{
    for segment in segments {
        if segment.exec && holds_word(segment, at) {
            return Some(word(segment, (at - segment.at) as usize));
        }
    }
    None
}

impl Image {
    /// The instruction at an address, which no run changes. `None` where the address isn't
    /// aligned, where its word isn't wholly in a segment that can be executed, and where no row of
    /// the table matches that word.
    #[tactic(auto, unfolding(crate::specs::Machine::fetched))]
    pub fn instruction(&self, at: u32) -> Option<Instr>
        ensures { result ≡ instruction_in self.now at }
    {
        if at % 4 != 0 {
            return None;
        }
        let word = code_word(self.segments(), at)?;
        decode(word)
    }
}
