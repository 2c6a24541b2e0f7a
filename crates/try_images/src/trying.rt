// What the commands do.
ghost use Rattle.std.specs.Prelude.{◌≡◌, IfOk};
ghost use Rattle.try_sources.specs.declared.comparing.Verdict.TheVariants.{Equal};
ghost use Rattle.try_images.specs.Verdicts.{ExitsAs};

use super::bounds::greatest;
use super::images::{Places, placed, with_places};
use super::runs::over_image;
use elf_image::write;
use high_fold::Fold;
use high_ir::{Carried, High, MarkCopies};
use high_pass::Pass;
use layout_fitting::lay_unplaced;
use layout_program::Laid;
use low_ir::LowReg;
use low_make::lower;
use meaning_semantics::SourceRun;
use pass_common_subexpressions::without_reloads;
use pass_copy_propagation::without_copies;
use pass_jump_threading::threaded;
use pass_register_promotion::promoted;
use pass_strength_reduction::stepped;
use std::alloc::Global;
use std::fs;
use try_sources::{Fault, Verdict, compare, made_of, meaning_of};
use wcc_base::Memory;

/// The words that are commands.
pub const USAGE: &str =
    "try_images run SOURCE INPUT [MEANT], try_images image SOURCE slots|registers nothing|everything IMAGE, try_images lay SOURCE slots|registers TIMES, or try_images bound SOURCE slots|registers";

/// How the run of an image compares with what the source means.
fn verdict_of(
    alloc: Global,
    laid: &Laid,
    input: &[u8],
    meant: &SourceRun,
    marks: &[MarkCopies],
) -> Result<Verdict, Memory>
    ensures { IfOk result (λ v. v ≡ Equal → ExitsAs laid.now.image input.now meant.now) }
{
    let run = over_image(alloc, laid, input)?;
    Ok(compare(&run, marks, meant))
}

fn print_run(
    rt: &HostRuntime,
    input: &[u8],
    meant: &SourceRun,
    marks: &[MarkCopies],
    laid: &Option<Laid>,
) -> Result<(), Fault> {
    match laid {
        None => println!(rt; "no room")?,
        Some(laid) => {
            let verdict = verdict_of(rt.alloc(), laid, input, meant, marks)?;
            println!(rt; "{verdict}")?;
        }
    }
    Ok(())
}

fn print_unplaced(
    rt: &HostRuntime,
    input: &[u8],
    meant: &SourceRun,
    marks: &[MarkCopies],
    code: &LowReg,
) -> Result<(), Fault> {
    let laid = lay_unplaced(rt.alloc(), code)?;
    let printed = print_run(rt, input, meant, marks, &laid);
    drop(laid);
    printed
}

fn print_placed(
    rt: &HostRuntime,
    input: &[u8],
    meant: &SourceRun,
    marks: &[MarkCopies],
    code: &LowReg,
) -> Result<(), Fault> {
    let laid = placed(rt.alloc(), code)?;
    let printed = print_run(rt, input, meant, marks, &laid);
    drop(laid);
    printed
}

fn print_both(
    rt: &HostRuntime,
    name: &str,
    input: &[u8],
    meant: &SourceRun,
    marks: &[MarkCopies],
    code: &LowReg,
) -> Result<(), Fault> {
    print!(rt; "{name} nothing ")?;
    print_unplaced(rt, input, meant, marks, code)?;
    print!(rt; "{name} everything ")?;
    print_placed(rt, input, meant, marks, code)
}

fn print_places(
    rt: &HostRuntime,
    places: Places,
    name: &str,
    input: &[u8],
    meant: &SourceRun,
    made: &Carried,
) -> Result<(), Fault> {
    let low = lower(rt.alloc(), &made.program)?;
    let low = promoted(rt.alloc(), low)?;
    let low = threaded(rt.alloc(), low, &[])?;
    let low = without_reloads(rt.alloc(), low)?;
    let low = without_copies(rt.alloc(), low)?;
    let low = without_reloads(rt.alloc(), low)?;
    let low = without_copies(rt.alloc(), low)?;
    let low = stepped(rt.alloc(), low)?;
    let low = without_copies(rt.alloc(), low)?;
    let low = threaded(rt.alloc(), low, &[])?;
    let code = with_places(rt.alloc(), low, places)?;
    let printed = print_both(rt, name, input, meant, &made.copies.marks, &code);
    drop(code);
    printed
}

fn print_made(
    rt: &HostRuntime,
    input: &[u8],
    meant: &SourceRun,
    made: &Carried,
) -> Result<(), Fault> {
    print_places(rt, Places::Slots, "slots", input, meant, made)?;
    print_places(rt, Places::Registers, "registers", input, meant, made)
}

fn try_text(rt: &HostRuntime, text: &[u8], input: &[u8], meant: &SourceRun) -> Result<(), Fault> {
    let made = made_of(rt.alloc(), text)?;
    let printed = print_made(rt, input, meant, &made);
    drop(made);
    printed
}

/// Makes the images of a source, runs them on an input, and prints how that compares with what a source means there.
pub fn try_source(rt: &HostRuntime, source: &str, input: &str, meant: &str) -> Result<(), Fault> {
    let text = fs::read(rt, source)?;
    let input = fs::read(rt, input)?;
    let meant = fs::read(rt, meant)?;
    let meaning = meaning_of(rt.alloc(), &meant, &input)?;
    let tried = try_text(rt, &text, &input, &meaning);
    drop(meaning);
    tried
}

fn places_named(word: &str) -> Result<Places, Fault> {
    if word == "slots" {
        return Ok(Places::Slots);
    }
    if word == "registers" {
        return Ok(Places::Registers);
    }
    Err(Fault::Usage(USAGE))
}

fn lowered(alloc: Global, program: &High, places: Places) -> Result<LowReg, Memory> {
    let low = lower(alloc, program)?;
    let low = promoted(alloc, low)?;
    let low = threaded(alloc, low, &[])?;
    let low = without_reloads(alloc, low)?;
    let low = without_copies(alloc, low)?;
    let low = without_reloads(alloc, low)?;
    let low = without_copies(alloc, low)?;
    let low = stepped(alloc, low)?;
    let low = without_copies(alloc, low)?;
    let low = threaded(alloc, low, &[])?;
    with_places(alloc, low, places)
}

fn code_of(rt: &HostRuntime, source: &str, places: Places) -> Result<LowReg, Fault> {
    let text = fs::read(rt, source)?;
    let made = made_of(rt.alloc(), &text)?;
    let code = lowered(rt.alloc(), &made.program, places);
    drop(made);
    Ok(code?)
}

fn folded_code_of(rt: &HostRuntime, source: &str, places: Places) -> Result<LowReg, Fault> {
    let text = fs::read(rt, source)?;
    let made = made_of(rt.alloc(), &text)?;
    let folded = Fold.run(rt.alloc(), &made.program);
    drop(made);
    let folded = folded?;
    let code = lowered(rt.alloc(), &folded.program, places);
    drop(folded);
    Ok(code?)
}

fn write_laid(rt: &HostRuntime, laid: &Option<Laid>, image: &str) -> Result<(), Fault> {
    match laid {
        None => Err(Fault::Untried("the program has no room")),
        Some(laid) => {
            let bytes = write(rt.alloc(), &laid.image)?;
            fs::write(rt, image, &bytes)?;
            Ok(())
        }
    }
}

fn write_code(rt: &HostRuntime, code: &LowReg, placement: &str, image: &str) -> Result<(), Fault> {
    let laid = if placement == "everything" {
        placed(rt.alloc(), code)?
    } else {
        lay_unplaced(rt.alloc(), code)?
    };
    let written = write_laid(rt, &laid, image);
    drop(laid);
    written
}

/// Writes the image of a source.
pub fn write_image(
    rt: &HostRuntime,
    source: &str,
    places: &str,
    placement: &str,
    image: &str,
) -> Result<(), Fault> {
    let code = code_of(rt, source, places_named(places)?)?;
    let written = write_code(rt, &code, placement, image);
    drop(code);
    written
}

fn lay_code(rt: &HostRuntime, code: &LowReg, times: u32) -> Result<(), Fault> {
    for _ in 0..times {
        let laid = lay_unplaced(rt.alloc(), code)?;
        drop(laid);
    }
    println!(rt; "functions {}", code.low.functions.len())?;
    Ok(())
}

/// Lays a source's program so many times, and prints how many functions it has.
pub fn lay_times(rt: &HostRuntime, source: &str, places: &str, times: &str) -> Result<(), Fault> {
    let Ok(times) = times.parse::<u32>() else {
        return Err(Fault::Usage(USAGE));
    };
    let code = code_of(rt, source, places_named(places)?)?;
    let laid = lay_code(rt, &code, times);
    drop(code);
    laid
}

fn print_greatest(rt: &HostRuntime, laid: &Laid) -> Result<(), Fault> {
    match greatest(rt.alloc(), laid)? {
        None => println!(rt; "none")?,
        Some(cycles) => println!(rt; "greatest {cycles}")?,
    }
    Ok(())
}

fn print_laid(rt: &HostRuntime, code: &LowReg) -> Result<(), Fault> {
    let laid = lay_unplaced(rt.alloc(), code)?;
    let printed = match &laid {
        None => Err(Fault::Untried("the program has no room")),
        Some(laid) => print_greatest(rt, laid),
    };
    drop(laid);
    printed
}

/// Prints the greatest value of a flow of a source's folded program that keeps its loop bounds, with nothing in the scratchpad.
pub fn print_bound(rt: &HostRuntime, source: &str, places: &str) -> Result<(), Fault> {
    let code = folded_code_of(rt, source, places_named(places)?)?;
    let printed = print_laid(rt, &code);
    drop(code);
    printed
}
