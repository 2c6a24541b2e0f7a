//! Reads the report of its input, and writes it again: a program for tests.
//!
//! The input has lines of each kind, with every sort of value. Which texts are refused, and where, the cases of
//! `tests/program` try.
#![tactic(auto)]

use report_reading::{ReportFault, read};
use report_text::write;
use std::alloc::Global;
use std::io;

/// What is written of the report of a text.
fn rewritten(alloc: Global, text: &[u8]) -> Result<Vec<u8>, ReportFault> {
    match read(alloc, text) {
        Ok(report) => {
            let written = write(alloc, &report);
            drop(report);
            Ok(written?)
        }
        Err(fault) => Err(fault),
    }
}

fn main(rt: HostRuntime) -> io::Result<()> {
    let mut text = Vec::new(rt.alloc());
    for line in rt.lines(rt.alloc()) {
        text.extend_from_slice(line?.as_bytes())?;
        text.push(b'\n')?;
    }
    match rewritten(rt.alloc(), &text) {
        Ok(again) => print!(rt; "{}", std::str::from_utf8(&again).unwrap_or("no text"))?,
        Err(fault) => println!(rt; "{fault}")?,
    }
    Ok(())
}
