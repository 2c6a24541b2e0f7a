//! Says what the search for the greatest flow answers for images: a program for tests.
//!
//! A line of its input is a command and an image with its claims, in hexadecimal numbers. Between semicolons stand the entry
//! and the stall; the words of flash; exits; nevers; regions, each its first address, that behind its last and the sum of 1
//! for flash, 2 for the scratchpad and 4 for RAM; loop claims, each its least, its most, its header and its jump back; loops,
//! each its header, its jump back, its first and its last address; and functions, each its first address and that behind its
//! last, called ones before their callers.
//!
//! - `search`: the greatest value of a flow, or that there is none. The checker accepts what is found; and the walks at prices
//!   that are no costs list a flow of the entry's worth, move by move, where there is a flow.
//! - `fit`: whether the loops and functions fit the image's system.
//!
//! `stdin` and `stdout` are written by `tests/nests/cases.py`: the images of the test reports without restrictions and nests of
//! loops up to three deep, drawn at random, with calls from several places, breaks, addresses that are never reached and loads
//! that wait, with the values of an exact linear program; and loops and functions that fit an image or don't, by hand.
#![tactic(auto)]

mod cases;
mod priced;
mod search;

use std::alloc::Global;
use std::io;
use wcc_base::Memory;

fn answer_to(alloc: Global, line: &str) -> Result<String, Memory> {
    let Some((command, text)) = line.split_once(' ') else {
        return Ok(String::from_str(alloc, "no case")?);
    };
    match cases::case_of(alloc, text)? {
        Some(case) => {
            let answer = search::answer(alloc, command == "fit", &case);
            drop(case);
            answer
        }
        None => Ok(String::from_str(alloc, "no case")?),
    }
}

fn main(rt: HostRuntime) -> io::Result<()> {
    for line in rt.lines(rt.alloc()) {
        match answer_to(rt.alloc(), line?.as_str()) {
            Ok(answer) => println!(rt; "{answer}")?,
            Err(_) => println!(rt; "no memory")?,
        }
    }
    Ok(())
}
