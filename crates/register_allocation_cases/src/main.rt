//! Says where the registers of functions stand, and what their calls keep: a program for tests.
//!
//! The input has programs: a line for each function, as `low_lines` reads it, and behind a program a line that is no function. For
//! each function there is a line in the answer: how many slots it has; by register, its machine register, as `q3`, or its slot, as
//! `s0`; and for each call that keeps machine registers its place and those, as `; 5 q1 q3`. What is no function is said again.
//!
//! `tests/places` writes the input, and looks whether answers are right, by intervals that it finds by trying the ways through the
//! blocks. `stdout` has what it passed.
#![tactic(auto)]

mod answers;
mod lives;

use answers::answer_to;
use low_ir::Function;
use low_lines::function_of;
use std::alloc::Global;
use std::io;
use wcc_base::Memory;

/// The functions of a program, as far as it is read.
#[derive(Drop)]
struct Reading {
    functions: Vec<Function>,
}

impl Reading {
    /// What is answered behind a line: nothing where a function stands there, and else the places of the program before.
    fn take(&mut self, alloc: Global, line: &str) -> Result<String, Memory> {
        match function_of(alloc, line)? {
            Some(function) => {
                self.functions.push(function)?;
                Ok(String::new(alloc))
            }
            None => {
                let mut answer = answer_to(alloc, &self.functions)?;
                self.functions.clear();
                answer.push_str(line)?;
                answer.push('\n')?;
                Ok(answer)
            }
        }
    }
}

fn main(rt: HostRuntime) -> io::Result<()> {
    let mut reading = Reading {
        functions: Vec::new(rt.alloc()),
    };
    for line in rt.lines(rt.alloc()) {
        match reading.take(rt.alloc(), line?.as_str()) {
            Ok(answer) => print!(rt; "{answer}")?,
            Err(_) => println!(rt; "no memory")?,
        }
    }
    Ok(())
}
