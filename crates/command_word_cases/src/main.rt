//! Says what command lines ask: a program for tests.
//!
//! Each line of its input is a command line, in which one blank stands between two words: where two blanks stand, or one at
//! the end, a word is empty. The answer is `usage`, or the request with its options, and behind a semicolon the numbers that
//! hold with and without options. It was worked out by hand from `docs/COMMANDS.md`.
#![tactic(auto)]

mod requests;

use command_words::read_words;
use std::alloc::{AllocError, Global};
use std::io;

/// What a line of words asks.
fn answer_to(alloc: Global, line: &str) -> Result<String, AllocError> {
    let mut words = Vec::new(alloc);
    for word in line.split(' ') {
        words.push(String::from_str(alloc, word)?)?;
    }
    match read_words(alloc, words.as_slice()) {
        Ok(Some(request)) => requests::shown(alloc, request),
        Ok(None) => String::from_str(alloc, "usage"),
        Err(_) => String::from_str(alloc, "memory"),
    }
}

fn main(rt: HostRuntime) -> io::Result<()> {
    for line in rt.lines(rt.alloc()) {
        let answer = answer_to(rt.alloc(), line?.as_str())?;
        println!(rt; "{answer}")?;
    }
    Ok(())
}
