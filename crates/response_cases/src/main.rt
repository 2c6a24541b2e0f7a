//! Says how long tasks take, and which tasks lists have: a program for tests.
//!
//! A line of its input is a command; a task is written CYCLES/PERIOD, and `|` stands for the end of a list's line.
//!
//! - `responses TASK TASK ..`: the least responses, or the first task that is late.
//! - `fixed TASK TASK .. = N N ..`: whether these are responses.
//! - `list LINES`: the tasks of a list, or the first line that fails.
//!
//! `stdout` has what is wanted: worked out by hand, and for sets at the limits with whole numbers of Python
//! (`solved` of `tests/responses/schedule.py`).
#![tactic(auto)]

mod lists;
mod tasks;

use std::alloc::{AllocError, Global};
use std::io;

fn answer_to(alloc: Global, line: &str) -> Result<String, AllocError> {
    match line.split_once(' ') {
        Some(("responses", words)) => tasks::responses_of(alloc, words),
        Some(("fixed", words)) => tasks::are_fixed(alloc, words),
        Some(("list", text)) => lists::listed(alloc, text),
        _ => String::from_str(alloc, "no command"),
    }
}

fn main(rt: HostRuntime) -> io::Result<()> {
    for line in rt.lines(rt.alloc()) {
        let answer = answer_to(rt.alloc(), line?.as_str())?;
        println!(rt; "{answer}")?;
    }
    Ok(())
}
