//! Says what copy propagation makes of functions: a program for tests.
//!
//! Each line of the input is a function, as `low_lines` reads it, and is answered by a line of the same form; where a choice could
//! not be followed, by `stays`. A line that is no function is said again.
#![tactic(auto)]

use low_lines::{function_of, function_shown};
use pass_copy_propagation::functions_without_copies;
use std::alloc::Global;
use std::io;
use wcc_base::Memory;

fn answer_to(alloc: Global, line: &str) -> Result<String, Memory> {
    let Some(function) = function_of(alloc, line)? else {
        return Ok(format!(in alloc; "{line}")?);
    };
    let mut functions = Vec::new(alloc);
    functions.push(function)?;
    match functions_without_copies(alloc, &functions)? {
        None => Ok(format!(in alloc; "stays")?),
        Some(new) => match new.first() {
            None => Ok(String::new(alloc)),
            Some(function) => function_shown(alloc, function),
        },
    }
}

fn main(rt: HostRuntime) -> io::Result<()> {
    for line in rt.lines(rt.alloc()) {
        match answer_to(rt.alloc(), line?.as_str()) {
            Ok(answer) => println!(rt; "{answer}")?,
            Err(_) => println!(rt; "no memory")?,
        }
    }
    Ok(())
}
