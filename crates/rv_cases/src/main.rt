//! Reads words as instructions, and writes these as words again: a program for tests.
//!
//! A line of the input is a word, in eight hexadecimal digits; the answer is the instruction's name, rd, rs1, rs2 and
//! immediate, and its word, or `none`. The words are those of an independent assembler (`tests.md` says how they were made),
//! with at least four for each instruction and the extremes of its immediate, and words of the instruction set's tables.
#![tactic(auto)]

use rv_core::{decode, encode};
use std::alloc::{AllocError, Global};
use std::io;

fn answer_to(alloc: Global, line: &str) -> Result<String, AllocError> {
    let Ok(word) = u32::from_str_radix(line, 16) else {
        return format!(in alloc; "no word: {line}");
    };
    let Some(instr) = decode(word) else {
        return String::from_str(alloc, "none");
    };
    let (op, rd, rs1, rs2) = (instr.op(), instr.rd(), instr.rs1(), instr.rs2());
    let (imm, word) = (instr.imm(), encode(&instr));
    format!(in alloc; "{op:?} {rd} {rs1} {rs2} {imm} {word:08x}")
}

fn main(rt: HostRuntime) -> io::Result<()> {
    for line in rt.lines(rt.alloc()) {
        let answer = answer_to(rt.alloc(), line?.as_str())?;
        println!(rt; "{answer}")?;
    }
    Ok(())
}
