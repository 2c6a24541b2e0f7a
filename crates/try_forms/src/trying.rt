// What the commands do.
ghost use Rattle.facts_definitions.specs.FlowFacts.{AreFacts};
ghost use Rattle.types_tree.specs.View.{program_of};

use super::high_runs::over_variables;
use super::loops::{Bounds, bounds_of_loops};
use super::low_runs::{over_places, over_registers};
use super::operations::operations;
use facts_front::Source;
use high_ir::{Carried, High, LoopCopies, LoopCopy, MarkCopies, size};
use high_make::make;
use low_ir::{Low, all_slots};
use low_make::lower;
use meaning_semantics::SourceRun;
use std::alloc::Global;
use std::{fs, io};
use try_sources::{Fault, Verdict, compare, made_of, meaning_of, read};
use wcc_base::Memory;

/// The words that are commands.
pub const USAGE: &str =
    "try_forms run|low SOURCE INPUT [MEANT], or try_forms make|lower SOURCE TIMES";

/// The form of the program that is run.
#[derive(Clone, Copy)]
pub enum Form {
    High,
    Low,
}

/// The verdict on a run in the low form over registers of a kind.
fn print_run(rt: &HostRuntime, over: &str, verdict: Verdict) -> io::Result<()> {
    println!(rt; "{over} {verdict}")
}

fn print_sizes(rt: &HostRuntime, program: &High) -> io::Result<()> {
    let size = size(program);
    let operations = operations(program);
    println!(rt; "size {size} operations {operations}")
}

fn print_loop(rt: &HostRuntime, old: u32, copy: LoopCopy, bounds: Bounds) -> io::Result<()> {
    let LoopCopy { id, factor } = copy;
    let Bounds { least, most } = bounds;
    println!(rt; "loop {old} is {id} by {factor} from {least} to {most}")
}

/// The copies of a loop of the source, each with its bounds.
fn print_copies(rt: &HostRuntime, bounds: &[Bounds], copies: &LoopCopies) -> Result<(), Fault> {
    for copy in &copies.new {
        let Some(bounds) = bounds.get(copy.id as usize) else {
            return Err(Fault::Untried("a loop that is listed isn't there"));
        };
        print_loop(rt, copies.old, *copy, *bounds)?;
    }
    Ok(())
}

fn print_loops(rt: &HostRuntime, made: &Carried) -> Result<(), Fault> {
    let bounds = bounds_of_loops(rt.alloc(), &made.program)?;
    for copies in &made.copies.loops {
        print_copies(rt, &bounds, copies)?;
    }
    Ok(())
}

/// Runs a program in the high form on an input, and prints what came of it.
fn print_tried(
    rt: &HostRuntime,
    input: &[u8],
    meant: &SourceRun,
    made: &Carried,
) -> Result<(), Fault> {
    let run = over_variables(rt.alloc(), &made.program, input)?;
    let verdict = compare(&run, &made.copies.marks, meant);
    println!(rt; "{verdict}")?;
    print_sizes(rt, &made.program)?;
    print_loops(rt, made)
}

/// How many steps a run in the low form may take: memory ends before, since each block is noted that begins.
fn most_steps() -> u64 {
    1 << 40
}

/// Runs a program in the low form with each register in a slot of its own, and prints what came of it.
fn print_slots(
    rt: &HostRuntime,
    input: &[u8],
    meant: &SourceRun,
    marks: &[MarkCopies],
    low: Low,
) -> Result<(), Fault> {
    let code = all_slots(rt.alloc(), low)?;
    let run = over_places(rt.alloc(), &code, input, most_steps())?;
    drop(code);
    print_run(rt, "slots", compare(&run, marks, meant))?;
    Ok(())
}

/// Runs the program in the low form over virtual registers and over slots, and prints what came of it.
fn print_low(
    rt: &HostRuntime,
    input: &[u8],
    meant: &SourceRun,
    made: &Carried,
) -> Result<(), Fault> {
    let low = lower(rt.alloc(), &made.program)?;
    let run = over_registers(rt.alloc(), &low, input, most_steps())?;
    print_run(rt, "registers", compare(&run, &made.copies.marks, meant))?;
    print_slots(rt, input, meant, &made.copies.marks, low)
}

fn print_form(
    rt: &HostRuntime,
    form: Form,
    input: &[u8],
    meant: &SourceRun,
    made: &Carried,
) -> Result<(), Fault> {
    match form {
        Form::High => print_tried(rt, input, meant, made),
        Form::Low => print_low(rt, input, meant, made),
    }
}

fn try_meaning(
    rt: &HostRuntime,
    form: Form,
    text: &[u8],
    input: &[u8],
    meaning: &SourceRun,
) -> Result<(), Fault> {
    let made = made_of(rt.alloc(), text)?;
    let printed = print_form(rt, form, input, meaning, &made);
    drop(made);
    printed
}

fn try_texts(
    rt: &HostRuntime,
    form: Form,
    text: &[u8],
    input: &[u8],
    meant: &[u8],
) -> Result<(), Fault> {
    let meaning = meaning_of(rt.alloc(), meant, input)?;
    let printed = try_meaning(rt, form, text, input, &meaning);
    drop(meaning);
    printed
}

/// Makes the program of a source, runs it on an input, and prints how that compares with what a source means there.
pub fn try_source(
    rt: &HostRuntime,
    form: Form,
    source: &str,
    input: &str,
    meant: &str,
) -> Result<(), Fault> {
    let text = fs::read(rt, source)?;
    let input = fs::read(rt, input)?;
    let meant = fs::read(rt, meant)?;
    try_texts(rt, form, &text, &input, &meant)
}

/// Makes the program of a source so many times.
fn make_again(alloc: Global, source: &Source, times: u32) -> Result<(), Fault>
    requires { AreFacts (program_of source.now.typed.program) source.now.typed.program.names.items source.now.facts }
{
    for _ in 0..times {
        match make(alloc, &source.typed, &source.facts) {
            Ok(made) => drop(made),
            Err(_) => return Err(Fault::Memory),
        }
    }
    Ok(())
}

fn print_made(rt: &HostRuntime, text: &[u8]) -> Result<(), Fault> {
    let made = made_of(rt.alloc(), text)?;
    let printed = print_sizes(rt, &made.program);
    drop(made);
    printed?;
    Ok(())
}

/// Makes the program of a source so many times, and prints the sizes.
pub fn make_times(rt: &HostRuntime, source: &str, times: &str) -> Result<(), Fault> {
    let Ok(times) = times.parse::<u32>() else {
        return Err(Fault::Usage(USAGE));
    };
    let text = fs::read(rt, source)?;
    let source = read(rt.alloc(), &text)?;
    let made = make_again(rt.alloc(), &source, times);
    source.let_go();
    made?;
    print_made(rt, &text)
}

/// Makes the program in the low form so many times.
fn lower_again(alloc: Global, program: &High, times: u32) -> Result<(), Memory> {
    for _ in 0..times {
        match lower(alloc, program) {
            Ok(low) => drop(low),
            Err(fault) => return Err(fault),
        }
    }
    Ok(())
}

/// Makes the program of a source, and that in the low form so many times, and prints the sizes.
pub fn lower_times(rt: &HostRuntime, source: &str, times: &str) -> Result<(), Fault> {
    let Ok(times) = times.parse::<u32>() else {
        return Err(Fault::Usage(USAGE));
    };
    let text = fs::read(rt, source)?;
    let made = made_of(rt.alloc(), &text)?;
    let lowered = lower_again(rt.alloc(), &made.program, times);
    let printed = print_sizes(rt, &made.program);
    drop(made);
    lowered?;
    printed?;
    Ok(())
}
