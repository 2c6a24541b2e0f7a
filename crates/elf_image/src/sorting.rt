// Segments in ascending order of addresses.
ghost use Rattle.std.specs.Prelude.{◌≡◌, ◌≤◌, length, nat_le, OnOk};
ghost use Rattle.std.specs.List.{prefix_len};
ghost use Rattle.elf_image.specs.Sorting.{put_last};

use rv_core::Segment;
use wcc_base::Memory;

// How many segments at the front are not above that address.
fn place(segments: &[Segment], at: u32) -> usize
    ensures value { result ≡ prefix_len (λ s. nat_le s.at at) segments.now }
    ensures within { result ≤ length segments.now }
{
    segments
        .iter()
        .take_while(|segment| segment.at <= at)
        .count()
}

/// Puts a segment behind those that are not above it.
pub fn insert(segments: &mut Vec<Segment>, segment: Segment) -> Result<(), Memory>
    ensures { OnOk result (segments.new.items ≡ put_last segment segments.old.items) }
{
    segments.insert(place(segments, segment.at), segment)?;
    Ok(())
}
