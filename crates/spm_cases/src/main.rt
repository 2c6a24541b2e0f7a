//! Says what items gain in the scratchpad, which of them are chosen, and what is placed: a program for tests.
//!
//! A line of the input is a command and its numbers, and the answer is a line, too:
//!
//! - `choose CAPACITY ID SIZE GAIN, ID SIZE GAIN, ..`: the numbers of the chosen items.
//! - `gain code|data flash|spm|ram PART`: what an item of two addresses gains, one of which a flow visits so often.
//! - `place FUNCTIONS ARRAYS ID ID ..`: which functions and which arrays stand in the scratchpad.
//!
//! `stdout` has what is wanted: the choices by trying every set, the rest by hand. `choices.py` writes both.
#![tactic(auto)]

mod choices;
mod gains;
mod numbers;
mod places;

use std::alloc::Global;
use std::io;
use wcc_base::Memory;

fn answer_to(alloc: Global, line: &str) -> Result<String, Memory> {
    match line.split_once(' ') {
        Some(("choose", rest)) => choices::choice_answer(alloc, rest),
        Some(("gain", rest)) => gains::gain_answer(alloc, rest),
        Some(("place", rest)) => places::place_answer(alloc, rest),
        _ => Ok(format!(in alloc; "no command: {line}")?),
    }
}

fn main(rt: HostRuntime) -> io::Result<()> {
    for line in rt.lines(rt.alloc()) {
        match answer_to(rt.alloc(), line?.as_str()) {
            Ok(answer) => println!(rt; "{answer}")?,
            Err(_) => println!(rt; "no memory")?,
        }
    }
    Ok(())
}
