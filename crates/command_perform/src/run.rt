// The command `run IMAGE INPUT OUTPUT [--limit N] [--table FILE]`.
ghost use Rattle.std.specs.Prelude.{◌≡◌, ◌≤◌, ◌^◌, ◌⊎◌, length, IfOk, MatchResult};
ghost use Rattle.wcc_base.specs.declared.status.Status.TheVariants as status;
ghost use Rattle.rv_core.specs.Table.{table_of};
ghost use Rattle.command_words.specs.Held.{run_request};
ghost use Rattle.command_perform.specs.Words.{Run};
ghost use Rattle.command_perform.specs.Commands.{wanted_of, job_of, Refuses, Makes};
ghost use Rattle.command_perform.specs.Ends.{IsEnd, IsRefusal};
ghost use Rattle.elf_image.specs.Faults.{StopsAs};
ghost use Rattle.command_perform.specs.Running.{Simulates, RefusesImage, MakesOutput, run_status, ran_outputs, fault_number, fault_index};
ghost use Rattle.command_perform.specs.Outputs.{outputs_of};

use crate::lines::run_line;
use crate::make::{Made, Output};
use crate::printing::text_of;
use crate::tables::charged_two;
use command_words::RunRequest;
use elf_image::{ElfFault, read};
use rv_core::Costs;
use rv_sim::{Ending, Machine};
use std::alloc::Global;
use wcc_base::{Items, Memory, Status};

const OUTPUT_MOST: u32 = 16_777_216;

// The code of a refusal of an image.
const NO_IMAGE: u8 = 10;

/// A machine that has run, and how its run ended.
#[derive(Drop)]
pub struct Ran {
    pub machine: Machine,
    pub ending: Ending,
}

/// Runs the image that the bytes load to.
pub fn simulate(
    alloc: Global,
    image: &[u8],
    input: Vec<u8>,
    costs: Costs,
    cycles: u64,
) -> Result<Ran, ElfFault>
    requires { cycles ≤ 2 ^ 62 }
    ensures { MatchResult result (λ r. Simulates (record { image = image.now; input = input.items; costs = table_of costs; cycles = cycles }) r.machine r.ending) (StopsAs image.now) }
{
    let image = match read(alloc, image) {
        Ok(image) => image,
        Err(fault) => return Err(fault),
    };
    match Machine::new(alloc, &image, costs, input, OUTPUT_MOST) {
        Ok(mut machine) => {
            let ending = machine.run(cycles);
            Ok(Ran { machine, ending })
        }
        Err(_) => Err(ElfFault::Memory),
    }
}

/// The status of a run.
pub fn run_status(ending: Ending, pc: u32, cycles: u64) -> Status
    ensures { result ≡ run_status ending pc cycles }
{
    match ending {
        Ending::Exit { .. } => Status::Done,
        Ending::Trap { pc: at, kind } => Status::Stopped {
            kind: 1,
            code: kind,
            at,
            cycles,
        },
        Ending::CycleLimit => Status::Stopped {
            kind: 2,
            code: 0,
            at: pc,
            cycles,
        },
        Ending::OutputFull => Status::Stopped {
            kind: 3,
            code: 0,
            at: pc,
            cycles,
        },
    }
}

/// The number of a fault of an image, and the index of a segment.
pub fn fault_of_image(fault: ElfFault) -> (u8, u32)
    ensures { result ≡ (fault_number fault, fault_index fault) }
{
    match fault {
        ElfFault::NotElf => (1, 0),
        ElfFault::WrongMachine => (2, 0),
        ElfFault::BadSegment { index } => (3, index),
        ElfFault::Memory => (4, 0),
    }
}

// The status of a file that is no image.
fn no_image(fault: ElfFault) -> Status
    ensures { result ≡ status.Refused 10 (fault_number fault) (fault_index fault) }
{
    let (detail, at) = fault_of_image(fault);
    Status::Refused {
        code: NO_IMAGE,
        detail,
        at,
    }
}

// The output, whatever the ending.
fn outputs<'a>(alloc: Global, output: &'a str, ran: Ran) -> Result<Made<'a>, Memory>
    ensures { IfOk result (λ m. outputs_of m ≡ ran_outputs output.entry.now ran.machine ran.ending) }
{
    let ending = ran.ending;
    let pc = ran.machine.pc();
    let cycles = ran.machine.cycles();
    let line = run_line(alloc, ending, pc, cycles)?;
    let lines = text_of(alloc, &line)?;
    let mut files = Vec::new(alloc);
    files.push(Output {
        name: output,
        bytes: Items::new(ran.machine.into_output()),
    })?;
    Ok(Made {
        status: run_status(ending, pc, cycles),
        files,
        lines: Items::new(lines),
    })
}

// Runs the image on the input with these costs.
fn run_with<'a>(
    alloc: Global,
    asked: RunRequest<'a>,
    image: Items<u8>,
    input: Items<u8>,
    costs: Costs,
) -> Result<Made<'a>, Status>
    ensures { MatchResult result (λ m. IsEnd m.status × MakesOutput (run_request asked.entry).output (job_of (run_request asked.entry) (table_of costs) image input) (outputs_of m))
        (λ s. (s ≡ status.Memory) ⊎ (IsRefusal s × RefusesImage image s)) }
{
    let limit = asked.cycle_limit();
    match simulate(alloc, image.as_slice(), input.into_vec(), costs, limit) {
        Ok(ran) => match outputs(alloc, asked.output, ran) {
            Ok(made) => Ok(made),
            Err(_) => Err(Status::Memory),
        },
        Err(ElfFault::Memory) => Err(Status::Memory),
        Err(fault) => Err(no_image(fault)),
    }
}

/// Runs the image on the input, with the costs of the table where one is named.
pub fn make_run<'a>(
    alloc: Global,
    asked: RunRequest<'a>,
    contents: Vec<Items<u8>>,
) -> Result<Made<'a>, Status>
    requires { length contents.items ≡ length (wanted_of (Run (run_request asked))) }
    ensures { MatchResult result (λ m. IsEnd m.status × Makes (Run (run_request asked.entry)) contents.items (outputs_of m))
        (λ s. (s ≡ status.Memory) ⊎ (IsRefusal s × Refuses (Run (run_request asked.entry)) contents.items s)) }
{
    match charged_two(alloc, asked.table, contents) {
        Ok((image, input, costs)) => run_with(alloc, asked, image, input, costs),
        Err(status) => Err(status),
    }
}
