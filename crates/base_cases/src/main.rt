//! Says what fractions, sums, and stores and sinks in memory come to: a program for tests.
//!
//! A line of the input is a command and its numbers, and the answer is a line, too:
//!
//! - `new N D`, `floor N D`, `add N D N D`, `mul N D N D`, `cmp N D N D`: fractions.
//! - `compare N D N D`: fractions of any parts, with positive denominators.
//! - `sum A:C A:C ..`: the terms at the addresses A are added one by one; the faults, and the terms of the sum.
//! - `store calm`, `store slow`, `store failing`, `sink calm`, `sink failing`: calls of these, and what they answer.
//!
//! `stdout` has what is wanted: at the edges of fractions and of sums it was worked out with Python's `fractions` and whole
//! numbers.
#![tactic(auto)]

mod fractions;
mod stores;
mod sums;

use std::alloc::{AllocError, Global};
use std::io;

fn answer_to(alloc: Global, line: &str) -> Result<String, AllocError> {
    match line.split_once(' ') {
        Some(("sum", terms)) => sums::answer(alloc, terms),
        Some(("store", which)) => stores::store_answer(alloc, which),
        Some(("sink", which)) => stores::sink_answer(alloc, which),
        Some((command, numbers)) => fractions::answer(alloc, command, numbers),
        None => format!(in alloc; "no command: {line}"),
    }
}

fn main(rt: HostRuntime) -> io::Result<()> {
    for line in rt.lines(rt.alloc()) {
        let answer = answer_to(rt.alloc(), line?.as_str())?;
        println!(rt; "{answer}")?;
    }
    Ok(())
}
