//! Lays a small program over slots and over machine registers, with and without the scratchpad, and says how it lies: a program
//! for tests.
//!
//! It is the sum of three squares, which has a loop and a call, and arrays of each row beside it in the last two layouts. Then
//! come the parts that no layout shows: what functions save and where frames and arrays lie, lines of regions where items touch
//! what they are said to, an order of functions, and an image of code alone.
//!
//! Contracts of what makes items, frames, arrays and lists leave want of memory open; here each of these calls is made. What is
//! printed was worked out by hand, and words of code are those of an independent assembler, clang with its integrated one for
//! `rv32im`.
#![tactic(auto)]

mod arrays;
mod laying;
mod programs;
mod regions;
mod registers;
mod rooms;
mod saving;
mod segments;
mod telling;

use arrays::{ARRAYS, objects};
use claims_lists::by_address;
use image_memory::Placement;
use layout_fitting::{lay_placed, sizes_of};
use layout_program::Laid;
use low_ir::{LowReg, all_slots};
use std::alloc::Global;
use std::io;
use wcc_base::Memory;

/// What is laid, and how.
#[derive(Clone, Copy)]
struct Case {
    name: &'static str,
    in_registers: bool,
    has_arrays: bool,
    /// Whether the first function, and an array, lie in the scratchpad.
    is_placed: bool,
}

const CASES: [Case; 5] = [
    Case {
        name: "slots",
        in_registers: false,
        has_arrays: false,
        is_placed: false,
    },
    Case {
        name: "registers",
        in_registers: true,
        has_arrays: false,
        is_placed: false,
    },
    Case {
        name: "registers, placed",
        in_registers: true,
        has_arrays: false,
        is_placed: true,
    },
    Case {
        name: "slots, with arrays",
        in_registers: false,
        has_arrays: true,
        is_placed: false,
    },
    Case {
        name: "registers, with arrays, placed",
        in_registers: true,
        has_arrays: true,
        is_placed: true,
    },
];

fn code_of(alloc: Global, case: Case) -> Result<LowReg, Memory> {
    let objects = if case.has_arrays {
        objects(alloc, &ARRAYS)?
    } else {
        Vec::new(alloc)
    };
    let low = programs::sum_of_squares(alloc, objects)?;
    if case.in_registers {
        registers::in_registers(alloc, low)
    } else {
        all_slots(alloc, low)
    }
}

fn placement_of(alloc: Global, is_placed: bool) -> Result<Placement, Memory> {
    Ok(Placement {
        functions: vec![in alloc; is_placed]?,
        objects: vec![in alloc; false, false, false, false, false, is_placed]?,
    })
}

fn fitted(alloc: Global, code: &LowReg, placement: &Placement) -> Result<Option<Laid>, Memory> {
    match sizes_of(alloc, code)? {
        None => Ok(None),
        Some(sizes) => lay_placed(alloc, code, &sizes, placement),
    }
}

fn told(alloc: Global, code: &LowReg, placement: &Placement) -> Result<String, Memory> {
    match fitted(alloc, code, placement)? {
        None => Ok(String::from_str(alloc, "no room\n")?),
        Some(laid) => {
            let told = telling::told(alloc, &laid);
            drop(laid);
            Ok(told?)
        }
    }
}

fn answer(alloc: Global, case: Case) -> Result<String, Memory> {
    let code = code_of(alloc, case)?;
    let placement = placement_of(alloc, case.is_placed);
    let answer = match placement {
        Ok(placement) => told(alloc, &code, &placement),
        Err(memory) => Err(memory),
    };
    drop(code);
    answer
}

/// Functions by address, of which the first and the third lie in the scratchpad: those in flash come first.
fn order(alloc: Global) -> Result<String, Memory> {
    let order = by_address(alloc, &[true, false, true], 4)?;
    Ok(format!(in alloc; "{:?}\n", order.as_slice())?)
}

fn print_answer(rt: &HostRuntime, name: &str, answer: Result<String, Memory>) -> io::Result<()> {
    println!(rt; "{name}")?;
    match answer {
        Ok(lines) => print!(rt; "{lines}"),
        Err(_) => println!(rt; "no memory"),
    }
}

fn main(rt: HostRuntime) -> io::Result<()> {
    let alloc = rt.alloc();
    for case in CASES {
        print_answer(&rt, case.name, answer(alloc, case))?;
    }
    print_answer(&rt, "saved registers", saving::saved_registers(alloc))?;
    print_answer(&rt, "frames", saving::frames_over_registers(alloc))?;
    print_answer(&rt, "slots and arrays", saving::memory_over_slots(alloc))?;
    print_answer(&rt, "regions", regions::lines_of(alloc))?;
    print_answer(&rt, "order", order(alloc))?;
    print_answer(&rt, "code alone", segments::code_alone(alloc))
}
