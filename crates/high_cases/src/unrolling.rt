// Loops by a factor.
ghost use Rattle.std.specs.Prelude.{◌≤◌};

use super::looping::{Starts, counting, nested};
use high_eval::evaluate;
use high_ir::statement::Statement;
use high_ir::{Copies, High};
use high_pass::Pass;
use std::alloc::{AllocError, Global};
use unroller::Unroll;
use wcc_base::Memory;

/// A loop, and how many statements stand right before it.
#[derive(Clone, Copy)]
struct Found {
    before: usize,
    starts: Starts,
}

fn as_turned(before: usize, statement: &Statement) -> Option<Found> {
    match statement {
        Statement::Loop { min, max, .. } => Some(Found {
            before,
            starts: Starts {
                min: *min,
                max: *max,
            },
        }),
        _ => None,
    }
}

/// The loop that a statement is, or that is its last part.
fn turned(statement: &Statement) -> Option<Found> {
    match statement {
        Statement::Seq(parts) => as_turned(parts.len().saturating_sub(1), parts.last()?),
        _ => as_turned(0, statement),
    }
}

/// The body of the block that stands at a place among the parts of a statement.
fn block_at(statement: &Statement, place: usize) -> Option<&Statement> {
    let Statement::Seq(parts) = statement else {
        return None;
    };
    match parts.get(place)? {
        Statement::Block(body) => Some(body),
        _ => None,
    }
}

/// The body of the block in the first part of a loop's body.
fn within(statement: &Statement) -> Option<&Statement> {
    match statement {
        Statement::Loop { body, .. } => block_at(body, 0),
        _ => None,
    }
}

/// The loop in the block that is the third part of a program's first function.
fn outer(program: &High) -> Option<&Statement> {
    block_at(&program.functions.first()?.body, 2)
}

/// That loop, and the one in the block within it.
fn loops_of(alloc: Global, program: &High) -> Result<Vec<Found>, AllocError> {
    let mut loops = Vec::new(alloc);
    let Some(outer) = outer(program) else {
        return Ok(loops);
    };
    if let Some(turned) = turned(outer) {
        loops.push(turned)?;
    }
    let Some(inner) = within(outer) else {
        return Ok(loops);
    };
    if let Some(turned) = turned(inner) {
        loops.push(turned)?;
    }
    Ok(loops)
}

/// What became of loops: each copy with its factor, the statements before it and its bounds, and the never marks.
fn became(alloc: Global, copies: &Copies, loops: &[Found]) -> Result<String, AllocError> {
    let mut line = String::new(alloc);
    for entry in &copies.loops {
        for copy in &entry.new {
            if let Some(turned) = loops.get(copy.id as usize) {
                let one = format!(in alloc;
                    "loop {} {} {} {} behind {}, ",
                    entry.old, copy.factor, turned.starts.min, turned.starts.max, turned.before
                )?;
                line.push_str(one.as_str())?;
            }
        }
    }
    for never in &copies.nevers {
        let one = format!(in alloc; "never {} {}, ", never.old, never.factor)?;
        line.push_str(one.as_str())?;
    }
    Ok(line)
}

/// What becomes of a program by a factor, and the value of its run.
fn by(alloc: Global, factor: u32, old: &High) -> Result<String, Memory>
    requires least { 1 ≤ factor }
    requires most { factor ≤ 64 }
{
    let made = Unroll { factor }.run(alloc, old)?;
    let loops = loops_of(alloc, &made.program)?;
    let became = became(alloc, &made.copies, &loops)?;
    match evaluate(alloc, &made.program, &[])? {
        None => Ok(format!(in alloc; "by {factor}: {became}no run")?),
        Some(run) => Ok(format!(in alloc; "by {factor}: {became}value {}", run.value)?),
    }
}

/// A loop of 101 starts that adds up numbers, by a factor.
fn hundred(alloc: Global, factor: u32) -> Result<String, Memory>
    requires least { 1 ≤ factor }
    requires most { factor ≤ 64 }
{
    let starts = Starts { min: 101, max: 101 };
    by(alloc, factor, &counting(alloc, 0, 100, starts, 1)?)
}

/// One of 91 to 101 starts, by 4.
fn fewer(alloc: Global) -> Result<String, Memory> {
    let starts = Starts { min: 91, max: 101 };
    by(alloc, 4, &counting(alloc, 0, 95, starts, 1)?)
}

/// One of a single start, by 4.
fn once(alloc: Global) -> Result<String, Memory> {
    let starts = Starts { min: 1, max: 1 };
    by(alloc, 4, &counting(alloc, 5, 5, starts, 0)?)
}

/// A loop within a loop, by 3.
fn tens(alloc: Global) -> Result<String, Memory> {
    by(alloc, 3, &nested(alloc)?)
}

/// A line for each of these.
pub fn rows(alloc: Global) -> Result<Vec<String>, Memory> {
    let mut rows = Vec::new(alloc);
    rows.push(hundred(alloc, 3)?)?;
    rows.push(hundred(alloc, 64)?)?;
    rows.push(fewer(alloc)?)?;
    rows.push(once(alloc)?)?;
    rows.push(tens(alloc)?)?;
    Ok(rows)
}
