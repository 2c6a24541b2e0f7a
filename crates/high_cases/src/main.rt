//! Says what the parts of the high form come to: a program for tests.
//!
//! Operators at the ends of their ranges; the size and the loops of a program; the copies of a pass that makes the same again,
//! behind a pass that copied mark 5; for each program that is folded its sizes, the value of its run, and the copies of its
//! marks and loops; for each whose loops are unrolled those of the new program with their bounds and the starts before them, and
//! the value of its run; the numbers of copies; and a program that calls a function of twelve nodes three times, with its calls
//! opened and without. What is printed was worked out by hand.
#![tactic(auto)]

mod folding;
mod inlined;
mod looping;
mod narrow;
mod numbered;
mod passes;
mod programs;
mod unrolling;

use high_eval::evaluate;
use high_fold::Fold;
use high_ir::expression::BinaryOperator;
use high_ir::object::Kind;
use high_ir::{Copies, High, loops, size};
use high_pass::Pass;
use std::alloc::{AllocError, Global};
use std::io;
use wcc_base::Memory;

const MINUS_ONE: u32 = u32::MAX;

const OPERATIONS: [(BinaryOperator, u32, u32); 5] = [
    (BinaryOperator::Divide, 7, 0),
    (BinaryOperator::Remainder, 7, 0),
    (BinaryOperator::Divide, 0x8000_0000, MINUS_ONE),
    (BinaryOperator::AtLeast, 0, MINUS_ONE),
    (BinaryOperator::AtLeastUnsigned, 0, MINUS_ONE),
];

/// The copies of each mark.
fn marks_of(alloc: Global, copies: &Copies) -> Result<String, AllocError> {
    let mut line = String::new(alloc);
    for mark in &copies.marks {
        let one = format!(in alloc; " {}: {:?}", mark.old, mark.new.as_slice())?;
        line.push_str(one.as_str())?;
    }
    Ok(line)
}

/// The copies of each loop.
fn loops_of(alloc: Global, copies: &Copies) -> Result<String, AllocError> {
    let mut line = String::new(alloc);
    for entry in &copies.loops {
        let one = format!(in alloc; " {}:", entry.old)?;
        line.push_str(one.as_str())?;
        for copy in &entry.new {
            let one = format!(in alloc; " {} by {}", copy.id, copy.factor)?;
            line.push_str(one.as_str())?;
        }
    }
    Ok(line)
}

/// The value of the run on no input.
fn value_of(alloc: Global, program: &High) -> Option<u32> {
    match evaluate(alloc, program, &[]) {
        Ok(Some(run)) => Some(run.value),
        _ => None,
    }
}

/// What a program is folded to.
fn folded(alloc: Global, program: &High) -> Result<String, AllocError> {
    match Fold.run(alloc, program) {
        Err(_) => Err(AllocError),
        Ok(made) => {
            let marks = marks_of(alloc, &made.copies)?;
            let loops = loops_of(alloc, &made.copies)?;
            let value = value_of(alloc, &made.program);
            Ok(format!(in alloc;
                "size {} to {} value {:?} marks{marks} loops{loops}",
                size(program),
                size(&made.program),
                value
            )?)
        }
    }
}

/// A program with its calls opened, where a function has at most so many nodes: the copies of each mark, what it returns and
/// how many marks it passes.
fn inlined_of(alloc: Global, limit: u32) -> Result<String, Memory> {
    let made = inlined::inlined(alloc, limit)?;
    let marks = marks_of(alloc, &made.copies)?;
    match inlined::returned(alloc, &made.program)? {
        Some((value, passed)) => Ok(format!(in alloc;
            "{} returns {} passes {}",
            marks.as_str(),
            value,
            passed
        )?),
        None => Ok(format!(in alloc; "{} no good run", marks.as_str())?),
    }
}

fn main(rt: HostRuntime) -> io::Result<()> {
    let alloc = rt.alloc();
    for (operator, left, right) in &OPERATIONS {
        println!(rt; "{}", operator.apply(*left, *right))?;
    }
    println!(rt; "{}", Kind::Signed8.convert(0x180))?;
    let program = programs::program(alloc)?;
    println!(rt; "size {} loops {}", size(&program), loops(&program))?;
    match passes::chained(alloc) {
        Ok(copies) => println!(rt; "marks{}", marks_of(alloc, &copies)?)?,
        Err(_) => println!(rt; "no memory")?,
    }
    println!(rt; "{}", folded(alloc, &folding::test_that_holds(alloc)?)?)?;
    println!(rt; "{}", folded(alloc, &folding::marker_left_out(alloc)?)?)?;
    println!(rt; "{}", folded(alloc, &folding::loop_left_out(alloc)?)?)?;
    println!(rt; "{}", folded(alloc, &narrow::conversion(alloc)?)?)?;
    println!(rt; "{}", folded(alloc, &narrow::neutral(alloc)?)?)?;
    match unrolling::rows(alloc) {
        Ok(rows) => {
            for row in &rows {
                println!(rt; "{row}")?;
            }
        }
        Err(_) => println!(rt; "no memory")?,
    }
    match numbered::numbered(alloc) {
        Ok(copies) => println!(rt;
            "copies{} loops {}",
            marks_of(alloc, &copies)?,
            copies.loops.len()
        )?,
        Err(_) => println!(rt; "no memory")?,
    }
    for limit in [12u32, 11, 0] {
        match inlined_of(alloc, limit) {
            Ok(line) => println!(rt; "inlined{}", line)?,
            Err(_) => println!(rt; "no memory")?,
        }
    }
    Ok(())
}
