//! Tries the programs in the high form and in the low form that sources become: a tool for tests and for measuring, and no
//! part of WCC.
//!
//! `try_forms run SOURCE INPUT [MEANT]` makes the program of SOURCE in the high form and runs it on INPUT. It prints how that
//! run compares with what the source MEANT means on INPUT, which is SOURCE where no other is given; then the sizes of the
//! program, and a line for each loop of the source with what the program has of it. `try_forms low SOURCE INPUT [MEANT]` makes
//! the program in the low form, runs it over virtual registers and then with each of them in a slot of its own, and prints how
//! each run compares. `try_forms make SOURCE TIMES` makes the program in the high form so many times, and `try_forms lower
//! SOURCE TIMES` that in the low form; both print the sizes in the high form alone.
//!
//! Proved: `try_sources` is given the value, the output and the marks of the good run in the high form (`specs/HighRuns`), and of
//! the run in the low form with the marks of the blocks that it passed (`specs/LowRuns`). So a verdict, which says of these
//! what the source means, says it of the program.
#![tactic(auto)]

mod high_runs;
mod loops;
mod low_runs;
mod operations;
mod trying;

use std::process::ExitCode;
use try_sources::{Fault, end, words};
use trying::{Form, USAGE, lower_times, make_times, try_source};

fn perform(rt: &HostRuntime, words: &[String]) -> Result<(), Fault> {
    if words.len() < 3 || words.len() > 4 {
        return Err(Fault::Usage(USAGE));
    }
    let (command, source, given) = (words[0].as_str(), words[1].as_str(), words[2].as_str());
    let meant = words.get(3).map_or(source, String::as_str);
    if command == "run" {
        return try_source(rt, Form::High, source, given, meant);
    }
    if command == "low" {
        return try_source(rt, Form::Low, source, given, meant);
    }
    if command == "make" && words.len() == 3 {
        return make_times(rt, source, given);
    }
    if command == "lower" && words.len() == 3 {
        return lower_times(rt, source, given);
    }
    Err(Fault::Usage(USAGE))
}

fn run(rt: &HostRuntime) -> Result<(), Fault> {
    let given = words(rt)?;
    perform(rt, &given)
}

fn main(rt: HostRuntime) -> ExitCode {
    end(&rt, run(&rt))
}
