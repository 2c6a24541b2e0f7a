// The command `make N SOURCE IMAGE REPORT`.
ghost use Rattle.std.specs.Prelude.{◌≡◌, ◌⊎◌, ◌++◌, false, [], ◌∷◌, IfOk, MatchResult};
ghost use Rattle.wcc_base.specs.declared.status.Status.TheVariants as status;
ghost use Rattle.rv_core.specs.Table.{default_table};
ghost use Rattle.elf_image.specs.Loading.{IsLoadable};
ghost use Rattle.report_check.specs.Checks.{IsAccepted, IsChecked};
ghost use Rattle.command_numbered.specs.Text.{numbered_text};
ghost use Rattle.command_words.specs.Held.{make_request};
ghost use Rattle.command_perform.specs.Ends.{IsEnd, IsRefusal};
ghost use Rattle.command_perform.specs.Lines.{all_shown, made_line, run_line};
ghost use Rattle.command_perform.specs.Running.{Simulates, run_status};
ghost use Rattle.command_perform.specs.Compiling.{Compiles};
ghost use Rattle.command_perform.specs.Sources.{RefusesProgram};
ghost use Rattle.command_perform.specs.Numbered.{numbered_job, numbered_outputs, MakesNumbered};
ghost use Rattle.command_perform.specs.Settings.{plain_settings};
ghost use Rattle.command_perform.specs.Building.{BuildsImage, IsNumbered};
ghost use Rattle.command_perform.specs.Outputs.{outputs_of};

use crate::compile::{Texts, compiled};
use crate::lines::{Part, made_line, ran_line, run_line};
use crate::make::{Made, Output};
use crate::printing::text_of;
use crate::run::{Ran, run_status, simulate};
use command_words::MakeRequest;
use elf_image::ElfFault;
use promise_compiler::{Compiler, Options};
use report_check::{Cause, Checked, check_report};
use rv_core::default_costs;
use rv_sim::Ending;
use std::alloc::Global;
use wcc_base::{Items, Memory, Status};

const CYCLES_MOST: u64 = 1 << 62;

// The check of what was compiled.
fn checked(alloc: Global, texts: &Texts) -> Result<Checked, Memory>
    requires { IsAccepted default_table texts.now.image texts.now.report }
    ensures { IfOk result (IsChecked default_table texts.now.image texts.now.report) }
{
    let costs = default_costs();
    match check_report(
        alloc,
        &costs,
        texts.image.as_slice(),
        texts.report.as_slice(),
    ) {
        Ok(checked) => Ok(checked),
        Err(Cause::Memory) => Err(Memory),
        Err(_) => unreachable!(),
    }
}

// The run of what was compiled, on the empty input.
fn run(alloc: Global, image: &[u8]) -> Result<Ran, Memory>
    requires { IsLoadable image.now }
    ensures { IfOk result (λ r. Simulates (numbered_job image.now) r.machine r.ending) }
{
    match simulate(alloc, image, Vec::new(alloc), default_costs(), CYCLES_MOST) {
        Ok(ran) => Ok(ran),
        Err(ElfFault::Memory) => Err(Memory),
        Err(_) => unreachable!(),
    }
}

// The lines of a source, of its bound and of its run.
fn lines_of(alloc: Global, bytes: u64, bound: &[u8], ran: &[Part]) -> Result<Vec<u8>, Memory>
    ensures { IfOk result (λ text. text.items ≡ made_line bytes ++ (bound.now ++ all_shown ran.now)) }
{
    let mut lines = text_of(alloc, &made_line(bytes))?;
    let ran = text_of(alloc, ran)?;
    lines.extend_from_slice(bound)?;
    lines.extend_from_slice(&ran)?;
    Ok(lines)
}

// The files of a source that was made, with these lines.
fn files_of<'a>(
    alloc: Global,
    asked: MakeRequest<'a>,
    source: Items<u8>,
    texts: Texts,
    lines: Vec<u8>,
) -> Result<Made<'a>, Memory>
    ensures { IfOk result (λ m. outputs_of m ≡ record {
      status = status.Done;
      files = ((make_request asked.entry).source, source) ∷ ((make_request asked.entry).image, texts.image) ∷ ((make_request asked.entry).report, texts.report) ∷ [];
      lines = lines.items;
    }) }
{
    let Texts { image, report, .. } = texts;
    let mut files = Vec::new(alloc);
    files.push(Output {
        name: asked.source,
        bytes: source,
    })?;
    files.push(Output {
        name: asked.image,
        bytes: image,
    })?;
    files.push(Output {
        name: asked.report,
        bytes: report,
    })?;
    Ok(Made {
        status: Status::Done,
        files,
        lines: Items::new(lines),
    })
}

// A run that didn't exit.
fn stopped<'a>(alloc: Global, ending: Ending, pc: u32, cycles: u64) -> Result<Made<'a>, Memory>
    ensures { IfOk result (λ m. outputs_of m ≡ record { status = run_status ending pc cycles; files = []; lines = run_line ending pc cycles }) }
{
    let line = run_line(alloc, ending, pc, cycles)?;
    let lines = text_of(alloc, &line)?;
    Ok(Made {
        status: run_status(ending, pc, cycles),
        files: Vec::new(alloc),
        lines: Items::new(lines),
    })
}

// What the run comes to.
fn outputs<'a>(
    alloc: Global,
    asked: MakeRequest<'a>,
    source: Items<u8>,
    texts: Texts,
    ran: &Ran,
) -> Result<Made<'a>, Memory>
    requires { source ≡ numbered_text asked.number }
    ensures { IfOk result (λ m. outputs_of m ≡ numbered_outputs (make_request asked.entry) texts ran.now.machine ran.now.ending) }
{
    let cycles = ran.machine.cycles();
    match ran.ending {
        Ending::Exit { value } => {
            let ran = ran_line(cycles, value, ran.machine.output().len() as u64);
            let bytes = source.as_slice().len() as u64;
            let lines = lines_of(alloc, bytes, texts.line.as_slice(), &ran)?;
            files_of(alloc, asked, source, texts, lines)
        }
        Ending::Trap { .. } => stopped(alloc, ran.ending, ran.machine.pc(), cycles),
        Ending::CycleLimit => stopped(alloc, ran.ending, ran.machine.pc(), cycles),
        Ending::OutputFull => stopped(alloc, ran.ending, ran.machine.pc(), cycles),
    }
}

// Checks and runs what the source was compiled to.
fn tried<'a>(
    alloc: Global,
    asked: MakeRequest<'a>,
    source: Items<u8>,
    texts: Texts,
) -> Result<Made<'a>, Memory>
    requires source { source ≡ numbered_text asked.number }
    requires compiled { Compiles false 0 default_table source texts }
    ensures made { IfOk result (λ m. IsEnd m.status × MakesNumbered (make_request asked.entry) (outputs_of m)) }
    ensures outputs { IfOk result (λ m. IsNumbered (make_request asked.entry) texts (outputs_of m)) }
{
    checked(alloc, &texts)?;
    let ran = run(alloc, texts.image.as_slice())?;
    outputs(alloc, asked, source, texts, &ran)
}

/// Makes the source of the number, compiles it, checks the report, and runs the image.
pub fn make_numbered<'a, C: Compiler>(
    compiler: &C,
    alloc: Global,
    asked: MakeRequest<'a>,
) -> Result<Made<'a>, Status>
    ensures made { MatchResult result (λ m. IsEnd m.status × MakesNumbered (make_request asked.entry) (outputs_of m))
        (λ s. (s ≡ status.Memory) ⊎ (IsRefusal s × RefusesProgram false (numbered_text asked.entry.number) s)) }
    ensures built { IfOk result (λ m. BuildsImage C.builds plain_settings (numbered_text asked.entry.number) (λ t. IsNumbered (make_request asked.entry) t (outputs_of m))) }
{
    let source = match command_numbered::write(alloc, asked.number) {
        Ok(source) => Items::new(source),
        Err(_) => return Err(Status::Memory),
    };
    let options = Options {
        costs: default_costs(),
        derive: false,
        spm: 0,
        inline: 0,
        unroll: 1,
    };
    match compiled(compiler, alloc, source.as_slice(), options) {
        Ok(texts) => match tried(alloc, asked, source, texts) {
            Ok(made) => Ok(made),
            Err(_) => Err(Status::Memory),
        },
        Err(status) => Err(status),
    }
}
