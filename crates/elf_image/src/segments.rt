// Whether segments may stand in an image.
ghost use Rattle.std.specs.Prelude.{◌≡◌, ◌+◌, ◌<◌, ◌↔◌, IsTrue, MatchOption};
ghost use Rattle.rv_core.specs.Images.{LiesIn, IsPlaced, IsSegment, Apart, ApartFrom};

use rv_core::{Region, Segment, region};

// The region in which the span of a segment lies.
fn region_of_span(segment: &Segment) -> Option<Region>
    requires { 0 < segment.now.size }
    ensures { MatchOption result ((r : Region) → LiesIn r segment.now → ⊥) (λ r. LiesIn r segment.now) }
{
    let last = segment.at.checked_add(segment.size - 1)?;
    let first_region = region(segment.at)?;
    let last_region = region(last)?;
    if first_region == last_region {
        Some(first_region)
    } else {
        None
    }
}

// Whether the span of a segment lies where it may, with its rights.
fn is_placed(segment: &Segment) -> bool
    requires { 0 < segment.now.size }
    ensures { IsTrue result ↔ IsPlaced segment.now }
{
    match region_of_span(segment) {
        Some(Region::Flash) => !segment.write,
        Some(Region::Spm) => true,
        Some(Region::Ram) => !segment.exec,
        None => false,
    }
}

/// Whether a segment may stand in an image.
pub fn is_segment(segment: &Segment) -> bool
    ensures { IsTrue result ↔ IsSegment segment.now }
{
    if segment.bytes.as_slice().len() > segment.size as usize {
        return false;
    }
    if segment.write && segment.exec {
        return false;
    }
    segment.size == 0 || is_placed(segment)
}

// The end of the span of a segment.
fn end(segment: &Segment) -> u64
    ensures { result ≡ segment.now.at + segment.now.size }
{
    u64::from(segment.at) + u64::from(segment.size)
}

// Whether two segments share no address.
fn are_apart(first: &Segment, second: &Segment) -> bool
    ensures { IsTrue result ↔ Apart first.now second.now }
{
    first.size == 0
        || second.size == 0
        || end(first) <= u64::from(second.at)
        || end(second) <= u64::from(first.at)
}

/// Whether a segment shares no address with the others.
pub fn is_apart(segment: &Segment, others: &[Segment]) -> bool
    ensures { IsTrue result ↔ ApartFrom segment.now others.now }
{
    for other in others {
        if !are_apart(segment, other) {
            return false;
        }
    }
    true
}
