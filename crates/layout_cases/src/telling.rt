// What is said of a laid program.
use claims_lists::CodeRange;
use code_flow_system::{Claims, LoopClaim, LoopShape, Span, Within};
use layout_program::Laid;
use rv_core::Segment;
use std::alloc::{AllocError, Global};

/// Lines, each of which ends.
type Lines = Result<String, AllocError>;

fn rights(segment: &Segment) -> &'static str {
    if segment.exec {
        "rx"
    } else if segment.write {
        "rw"
    } else {
        "r"
    }
}

/// A segment: its first address, its length, its rights, and its bytes as words.
pub fn segment_line(alloc: Global, segment: &Segment) -> Lines {
    let rights = rights(segment);
    let mut line = format!(in alloc; "segment {:08x} {} {rights}", segment.at, segment.size)?;
    let mut word: u32 = 0;
    for (i, byte) in segment.bytes.as_slice().iter().enumerate() {
        word = word / 0x100 + u32::from(*byte) * 0x100_0000;
        if i % 4 == 3 {
            let one = format!(in alloc; " {word:08x}")?;
            line.push_str(one.as_str())?;
        }
    }
    line.push('\n')?;
    Ok(line)
}

/// A line of regions: its first address and that behind its last, and whether flash, the scratchpad and RAM are touched.
pub fn region_line(alloc: Global, region: &Within) -> Lines {
    let (flash, spm, ram) = (region.flash, region.spm, region.ram);
    format!(in alloc;
        "region {:08x} {:08x} {flash} {spm} {ram}\n",
        region.first, region.end
    )
}

fn loop_line(alloc: Global, claim: &LoopClaim, shape: &LoopShape) -> Lines {
    let counts = format!(in alloc;
        "{} {} {} {}",
        claim.source, claim.factor, claim.min, claim.max
    )?;
    let places = format!(in alloc; "{:08x} {:08x}", claim.header, claim.back)?;
    format!(in alloc;
        "loop {counts} {places} {:?} {:08x} {:08x}\n",
        shape.parent, shape.first, shape.last
    )
}

fn claim_lines(alloc: Global, claims: &Claims, shapes: &[LoopShape]) -> Lines {
    let mut lines = String::new(alloc);
    for at in claims.exits() {
        lines.push_str(format!(in alloc; "exit {at:08x}\n")?.as_str())?;
    }
    for region in claims.regions() {
        lines.push_str(region_line(alloc, region)?.as_str())?;
    }
    for (claim, shape) in claims.loops().iter().zip(shapes) {
        lines.push_str(loop_line(alloc, claim, shape)?.as_str())?;
    }
    Ok(lines)
}

fn span_line(alloc: Global, span: &Span) -> Lines {
    format!(in alloc; "span {:08x} {:08x}\n", span.first, span.end)
}

fn range_line(alloc: Global, range: &CodeRange) -> Lines {
    format!(in alloc;
        "range {:?} {:08x} {:08x}\n",
        range.function, range.first, range.end
    )
}

/// Its segments, the claims on it, and its lists.
pub fn told(alloc: Global, laid: &Laid) -> Lines {
    let mut lines = String::new(alloc);
    for segment in laid.image.segments() {
        lines.push_str(segment_line(alloc, segment)?.as_str())?;
    }
    let claimed = claim_lines(alloc, &laid.claimed.claims, &laid.claimed.shapes)?;
    lines.push_str(claimed.as_str())?;
    for span in &laid.lists.spans {
        lines.push_str(span_line(alloc, span)?.as_str())?;
    }
    for range in &laid.lists.ranges {
        lines.push_str(range_line(alloc, range)?.as_str())?;
    }
    for places in &laid.lists.places {
        lines.push_str(format!(in alloc; "mark {:?}\n", places.as_slice())?.as_str())?;
    }
    Ok(lines)
}
