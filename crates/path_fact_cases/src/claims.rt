// The claims of a case, with its loops and functions.
use crate::cases::{Case, Fact, Row};
use code_flow_system::{Claims, FactClaim, LoopClaim, LoopShape, Never, Span};
use frac128::{Sum, SumFault};
use std::alloc::Global;
use wcc_base::Memory;

fn nevers(alloc: Global, addresses: &[u32]) -> Result<Vec<Never>, Memory> {
    let mut nevers = Vec::new(alloc);
    for at in addresses {
        nevers.push(Never {
            source: 0,
            factor: 1,
            at: *at,
        })?;
    }
    Ok(nevers)
}

fn loop_claims(alloc: Global, rows: &[Row]) -> Result<Vec<LoopClaim>, Memory> {
    let mut loops = Vec::new(alloc);
    for row in rows {
        if let [min, max, header, back] = row.as_slice() {
            loops.push(LoopClaim {
                source: 0,
                factor: 1,
                min: *min,
                max: *max,
                header: *header,
                back: *back,
            })?;
        }
    }
    Ok(loops)
}

/// Numbers with their addresses as a sum.
fn sum_of(alloc: Global, numbers: &[u32]) -> Result<Sum, Memory> {
    let mut sum = Sum::new(alloc);
    for i in 0..numbers.len() / 2 {
        match sum.add_term(numbers[2 * i + 1], i64::from(numbers[2 * i])) {
            Ok(()) | Err(SumFault::Range) => {}
            Err(SumFault::Memory) => return Err(Memory),
        }
    }
    Ok(sum)
}

fn facts(alloc: Global, facts: &[Fact]) -> Result<Vec<FactClaim>, Memory> {
    let mut claims = Vec::new(alloc);
    for fact in facts {
        claims.push(FactClaim {
            left: sum_of(alloc, &fact.left)?,
            op: fact.op,
            right: sum_of(alloc, &fact.right)?,
        })?;
    }
    Ok(claims)
}

pub fn claims(alloc: Global, case: &Case) -> Result<Option<Claims>, Memory> {
    let exits = Vec::from_slice(alloc, &case.exits)?;
    let nevers = nevers(alloc, &case.nevers)?;
    let loops = loop_claims(alloc, &case.loops)?;
    let facts = facts(alloc, &case.facts)?;
    if exits.len() > 100 || nevers.len() > 100 || loops.len() > 100 || facts.len() > 32 {
        return Ok(None);
    }
    let regions = Vec::new(alloc);
    Ok(Some(Claims::new(exits, nevers, regions, loops, facts)))
}

/// The loops, each from its header to its jump back.
pub fn shapes(alloc: Global, case: &Case) -> Result<Vec<LoopShape>, Memory> {
    let mut shapes = Vec::new(alloc);
    for row in &case.loops {
        if let [_, _, header, back] = row.as_slice() {
            shapes.push(LoopShape {
                header: *header,
                back: *back,
                parent: None,
                first: *header,
                last: *back,
            })?;
        }
    }
    Ok(shapes)
}

pub fn spans(alloc: Global, case: &Case) -> Result<Vec<Span>, Memory> {
    let mut spans = Vec::new(alloc);
    for row in &case.functions {
        if let [first, end] = row.as_slice() {
            spans.push(Span {
                first: *first,
                end: *end,
            })?;
        }
    }
    Ok(spans)
}
