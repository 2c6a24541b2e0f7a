// Images with claims, loops and functions, as a line has them.
use code_flow_system::{Claims, LoopClaim, LoopShape, Never, Span, Within};
use rv_core::{Image, Segment};
use std::alloc::Global;
use wcc_base::{Items, Memory};

/// Rows of numbers.
type Rows = Vec<Vec<u32>>;

#[derive(Drop)]
pub struct Case {
    entry: u32,
    pub stall: u32,
    words: Vec<u32>,
    exits: Vec<u32>,
    nevers: Vec<u32>,
    regions: Rows,
    claims: Rows,
    loops: Rows,
    functions: Rows,
}

fn numbers(alloc: Global, text: &str) -> Result<Vec<u32>, Memory> {
    let mut numbers = Vec::new(alloc);
    for word in text.split(' ') {
        if let Ok(number) = u32::from_str_radix(word, 16) {
            numbers.push(number)?;
        }
    }
    Ok(numbers)
}

/// Rows, each of which ends with a comma.
fn rows(alloc: Global, text: &str) -> Result<Rows, Memory> {
    let mut rows = Vec::new(alloc);
    for row in text.split(',') {
        rows.push(numbers(alloc, row)?)?;
    }
    Ok(rows)
}

/// The case of a line.
pub fn case_of(alloc: Global, text: &str) -> Result<Option<Case>, Memory> {
    let parts = text.split(';').collect::<Vec<&str>>(alloc)?;
    let [
        head,
        words,
        exits,
        nevers,
        regions,
        claims,
        loops,
        functions,
    ] = parts.as_slice()
    else {
        return Ok(None);
    };
    let [entry, stall] = *numbers(alloc, *head)?.as_slice() else {
        return Ok(None);
    };
    Ok(Some(Case {
        entry,
        stall,
        words: numbers(alloc, *words)?,
        exits: numbers(alloc, *exits)?,
        nevers: numbers(alloc, *nevers)?,
        regions: rows(alloc, *regions)?,
        claims: rows(alloc, *claims)?,
        loops: rows(alloc, *loops)?,
        functions: rows(alloc, *functions)?,
    }))
}

/// The image, whose words lie in flash.
pub fn image(alloc: Global, case: &Case) -> Result<Option<Image>, Memory> {
    let mut bytes = Vec::new(alloc);
    for word in &case.words {
        bytes.extend_from_slice(&word.to_le_bytes())?;
    }
    if bytes.len() > 0x1000 {
        return Ok(None);
    }
    let flash = Segment {
        at: 0,
        size: bytes.len() as u32,
        bytes: Items::new(bytes),
        read: true,
        write: false,
        exec: true,
    };
    let mut segments = Vec::new(alloc);
    segments.push(flash)?;
    Ok(Some(Image::new(case.entry, segments)))
}

fn nevers(alloc: Global, addresses: &[u32]) -> Result<Vec<Never>, Memory> {
    let mut nevers = Vec::new(alloc);
    for at in addresses {
        nevers.push(Never {
            source: 0,
            factor: 1,
            at: *at,
        })?;
    }
    Ok(nevers)
}

fn regions(alloc: Global, rows: &[Vec<u32>]) -> Result<Vec<Within>, Memory> {
    let mut regions = Vec::new(alloc);
    for row in rows {
        if let [first, end, set] = row.as_slice() {
            regions.push(Within {
                first: *first,
                end: *end,
                flash: *set % 2 == 1,
                spm: *set / 2 % 2 == 1,
                ram: *set / 4 % 2 == 1,
            })?;
        }
    }
    Ok(regions)
}

fn loop_claims(alloc: Global, rows: &[Vec<u32>]) -> Result<Vec<LoopClaim>, Memory> {
    let mut loops = Vec::new(alloc);
    for row in rows {
        if let [min, max, header, back] = row.as_slice() {
            loops.push(LoopClaim {
                source: 0,
                factor: 1,
                min: *min,
                max: *max,
                header: *header,
                back: *back,
            })?;
        }
    }
    Ok(loops)
}

pub fn claims(alloc: Global, case: &Case) -> Result<Option<Claims>, Memory> {
    let exits = Vec::from_slice(alloc, &case.exits)?;
    let nevers = nevers(alloc, &case.nevers)?;
    let regions = regions(alloc, &case.regions)?;
    let loops = loop_claims(alloc, &case.claims)?;
    if exits.len() > 100 || nevers.len() > 100 || regions.len() > 100 || loops.len() > 100 {
        return Ok(None);
    }
    let facts = Vec::new(alloc);
    Ok(Some(Claims::new(exits, nevers, regions, loops, facts)))
}

pub fn shapes(alloc: Global, case: &Case) -> Result<Vec<LoopShape>, Memory> {
    let mut shapes = Vec::new(alloc);
    for row in &case.loops {
        if let [header, back, first, last] = row.as_slice() {
            shapes.push(LoopShape {
                header: *header,
                back: *back,
                parent: None,
                first: *first,
                last: *last,
            })?;
        }
    }
    Ok(shapes)
}

pub fn spans(alloc: Global, case: &Case) -> Result<Vec<Span>, Memory> {
    let mut spans = Vec::new(alloc);
    for row in &case.functions {
        if let [first, end] = row.as_slice() {
            spans.push(Span {
                first: *first,
                end: *end,
            })?;
        }
    }
    Ok(spans)
}
