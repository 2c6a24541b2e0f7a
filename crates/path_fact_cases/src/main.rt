//! Says what walks find that pay for facts: a program for tests.
//!
//! A line of its input is an image with its claims, in hexadecimal numbers, and multipliers of its facts. Between semicolons
//! stand the entry; the words of flash; exits; nevers; loops, each its least, its most, its header and its jump back;
//! functions, each its first address and that behind its last, called ones before their callers; facts, each an operator,
//! numbers with their addresses, `/`, and the same of its right side; and, in decimals, a scale and a multiplier of each fact.
//!
//! The answer is the worth of the entry and, where it isn't negative, the value and the totals of the flow that the walks list;
//! and the bound of the certificate, which the checker accepts. Without scale and multipliers it is what the search finds: the
//! greatest value of a flow that keeps the facts, that there is none, or a bound alone with the columns that show its cause.
//!
//! `stdout` is what exact linear programs say, worked out in Python (`tests/nests/prices.py`).
#![tactic(auto)]

mod answers;
mod asking;
mod cases;
mod claims;
mod searches;
mod words;

use std::alloc::Global;
use std::io;
use wcc_base::Memory;

fn answer_to(alloc: Global, line: &str) -> Result<String, Memory> {
    match cases::case_of(alloc, line)? {
        Some(case) => {
            let answer = answers::answer_of(alloc, &case);
            drop(case);
            answer
        }
        None => Ok(String::from_str(alloc, "no case")?),
    }
}

fn main(rt: HostRuntime) -> io::Result<()> {
    for line in rt.lines(rt.alloc()) {
        match answer_to(rt.alloc(), line?.as_str()) {
            Ok(answer) => println!(rt; "{answer}")?,
            Err(_) => println!(rt; "no memory")?,
        }
    }
    Ok(())
}
