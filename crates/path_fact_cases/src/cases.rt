// Images with claims, loops, functions and multipliers, as a line has them.
use rv_core::{Image, Segment};
use std::alloc::Global;
use wcc_base::{Compare, Items, Memory};

/// Numbers, as a line has them.
pub type Row = Vec<u32>;

/// A fact: numbers with their addresses, on each side.
#[derive(Drop)]
pub struct Fact {
    pub left: Row,
    pub op: Compare,
    pub right: Row,
}

#[derive(Drop)]
pub struct Case {
    entry: u32,
    words: Row,
    pub exits: Row,
    pub nevers: Row,
    pub loops: Vec<Row>,
    pub functions: Vec<Row>,
    pub facts: Vec<Fact>,
    pub multipliers: Vec<i128>,
}

fn numbers(alloc: Global, text: &str) -> Result<Row, Memory> {
    let mut numbers = Vec::new(alloc);
    for word in text.split(' ') {
        if let Ok(number) = u32::from_str_radix(word, 16) {
            numbers.push(number)?;
        }
    }
    Ok(numbers)
}

/// Rows, each of which ends with a comma.
fn rows(alloc: Global, text: &str) -> Result<Vec<Row>, Memory> {
    let mut rows = Vec::new(alloc);
    for part in text.split(',') {
        rows.push(numbers(alloc, part)?)?;
    }
    Ok(rows)
}

fn decimals(alloc: Global, text: &str) -> Result<Vec<i128>, Memory> {
    let mut decimals = Vec::new(alloc);
    for word in text.split(' ') {
        if let Ok(number) = word.parse::<i128>() {
            decimals.push(number)?;
        }
    }
    Ok(decimals)
}

fn op_of(word: &str) -> Option<Compare> {
    match word {
        "<=" => Some(Compare::AtMost),
        ">=" => Some(Compare::AtLeast),
        "=" => Some(Compare::Equal),
        _ => None,
    }
}

fn fact_of(alloc: Global, text: &str) -> Result<Option<Fact>, Memory> {
    let Some((word, sides)) = text.split_once(' ') else {
        return Ok(None);
    };
    let Some((left, right)) = sides.split_once('/') else {
        return Ok(None);
    };
    let Some(op) = op_of(word) else {
        return Ok(None);
    };
    Ok(Some(Fact {
        left: numbers(alloc, left)?,
        op,
        right: numbers(alloc, right)?,
    }))
}

fn facts(alloc: Global, text: &str) -> Result<Vec<Fact>, Memory> {
    let mut facts = Vec::new(alloc);
    for part in text.split(',') {
        if let Some(fact) = fact_of(alloc, part)? {
            facts.push(fact)?;
        }
    }
    Ok(facts)
}

/// The case of a line.
pub fn case_of(alloc: Global, text: &str) -> Result<Option<Case>, Memory> {
    let parts = text.split(';').collect::<Vec<&str>>(alloc)?;
    let [
        entry,
        words,
        exits,
        nevers,
        loops,
        functions,
        restrictions,
        multipliers,
    ] = parts.as_slice()
    else {
        return Ok(None);
    };
    let [entry] = *numbers(alloc, *entry)?.as_slice() else {
        return Ok(None);
    };
    Ok(Some(Case {
        entry,
        words: numbers(alloc, *words)?,
        exits: numbers(alloc, *exits)?,
        nevers: numbers(alloc, *nevers)?,
        loops: rows(alloc, *loops)?,
        functions: rows(alloc, *functions)?,
        facts: facts(alloc, *restrictions)?,
        multipliers: decimals(alloc, *multipliers)?,
    }))
}

/// The image, whose words lie in flash.
pub fn image(alloc: Global, case: &Case) -> Result<Option<Image>, Memory> {
    let mut bytes = Vec::new(alloc);
    for word in &case.words {
        bytes.extend_from_slice(&word.to_le_bytes())?;
    }
    if bytes.len() > 0x1000 {
        return Ok(None);
    }
    let flash = Segment {
        at: 0,
        size: bytes.len() as u32,
        bytes: Items::new(bytes),
        read: true,
        write: false,
        exec: true,
    };
    let mut segments = Vec::new(alloc);
    segments.push(flash)?;
    Ok(Some(Image::new(case.entry, segments)))
}
