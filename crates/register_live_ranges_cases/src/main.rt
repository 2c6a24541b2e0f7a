//! Says between which places of a function each of its registers lives: a program for tests.
//!
//! A line of the input is a function, as `low_lines` reads it, and the answer is a line, too: by register the first and the last
//! place of its interval, or `-` where it has none.
//!
//! `stdout` has what is wanted: the first lines were worked out by hand, and the rest by `tests/intervals`, which writes both
//! files and finds the ways through the blocks by trying them.
#![tactic(auto)]

use low_ir::Function;
use low_lines::function_of;
use register_live_ranges::{Interval, intervals_of};
use std::alloc::Global;
use std::io;
use wcc_base::Memory;

fn intervals_in(alloc: Global, function: Function) -> Result<Vec<Option<Interval>>, Memory> {
    let found = intervals_of(alloc, &function);
    drop(function);
    found
}

fn shown(alloc: Global, interval: Option<Interval>) -> Result<String, Memory> {
    match interval {
        None => Ok(String::from_str(alloc, "-")?),
        Some(found) => Ok(format!(in alloc; "{}..{}", found.first, found.last)?),
    }
}

fn line_of(alloc: Global, intervals: &[Option<Interval>]) -> Result<String, Memory> {
    let mut line = String::new(alloc);
    for interval in intervals {
        let word = shown(alloc, *interval)?;
        line.push_str(word.as_str())?;
        line.push(' ')?;
    }
    Ok(String::from_str(alloc, line.as_str().trim_end())?)
}

fn answer_to(alloc: Global, line: &str) -> Result<String, Memory> {
    match function_of(alloc, line)? {
        None => Ok(format!(in alloc; "no function: {line}")?),
        Some(function) => {
            let intervals = intervals_in(alloc, function)?;
            line_of(alloc, &intervals)
        }
    }
}

fn main(rt: HostRuntime) -> io::Result<()> {
    for line in rt.lines(rt.alloc()) {
        match answer_to(rt.alloc(), line?.as_str()) {
            Ok(answer) => println!(rt; "{answer}")?,
            Err(_) => println!(rt; "no memory")?,
        }
    }
    Ok(())
}
