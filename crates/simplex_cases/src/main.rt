//! Says what pivots and rounds come to: a program for tests.
//!
//! A line of the input is a command and its numbers, and the answer is a line, too:
//!
//! - `reduced N N ..`: a row without a common divisor.
//! - `turned PLACE N N .. / N N ..`: the row that a pivot at a place of the first row makes of the second.
//! - `table MADE OP .. ; N N .. ; N N ..`: a round after so many pivots, under facts of these operators (`<=`, `>=`, `=`),
//!   over columns, each a value and its totals: how many pivots there are then, how the round ends, and with which table:
//!   the variables that its rows are solved for, its rows, and those of the two objectives.
//! - `round MADE TIMES OP .. ; N N .. ; N N ..`: what the end of such a round says, TIMES being one more than the number of
//!   loop claims: in the second phase the multipliers over their scale, the weighted value, and each column's weight over a
//!   common denominator; in the first one the multipliers.
//!
//! `stdout` has what is wanted: it was worked out with Python's whole numbers.
#![tactic(auto)]

mod columns;
mod numbers;
mod pivots;
mod rounds;
mod tables;

use std::alloc::{AllocError, Global};
use std::io;

fn answer_to(alloc: Global, line: &str) -> Result<String, AllocError> {
    match line.split_once(' ') {
        Some(("reduced", row)) => pivots::reduced_answer(alloc, row),
        Some(("turned", rest)) => pivots::turned_answer(alloc, rest),
        Some(("table", rest)) => tables::table_answer(alloc, rest),
        Some(("round", rest)) => rounds::round_answer(alloc, rest),
        _ => format!(in alloc; "no command: {line}"),
    }
}

fn main(rt: HostRuntime) -> io::Result<()> {
    for line in rt.lines(rt.alloc()) {
        let answer = answer_to(rt.alloc(), line?.as_str())?;
        println!(rt; "{answer}")?;
    }
    Ok(())
}
