// Runs of images, by the marks that they pass.
ghost use Rattle.std.specs.Prelude.{◌≡◌, IfOk};
ghost use Rattle.rv_core.specs.Runs.{setup};
ghost use Rattle.rv_core.specs.Table.{default_table};
ghost use Rattle.rv_sim.specs.Simulation.{IsAt};
ghost use Rattle.rv_runs.specs.Ends.{IsRunOf};

use rv_core::{Image, default_costs};
use rv_sim::{Ending, Machine};
use std::alloc::Global;
use std::collections::BTreeMap;
use wcc_base::Memory;

/// The end of a run: its value, its output and the marks that it passed.
#[derive(Drop)]
pub struct ImageRun {
    pub value: i32,
    pub output: Vec<u8>,
    pub trace: Vec<u32>,
}

/// How many bytes a run may put.
fn most_output() -> u32 {
    16_777_216
}

/// How many cycles a run may take.
fn most_cycles() -> u64
    ensures { result ≡ 1_099_511_627_776 }
{
    1_099_511_627_776
}

fn machine_of(alloc: Global, image: &Image, input: &[u8]) -> Result<Machine, Memory>
    ensures at { IfOk result (λ m. IsAt m (setup image.now default_table input.now) 0) }
    ensures start { IfOk result (λ m. m.state.cycles ≡ 0) }
{
    let mut bytes = Vec::new(alloc);
    bytes.extend_from_slice(input)?;
    Machine::new(alloc, image, default_costs(), bytes, most_output())
}

/// The marks at whose addresses a run is, until it ends.
fn trace_of(
    alloc: Global,
    image: &Image,
    marks: &BTreeMap<u32, u32>,
    input: &[u8],
) -> Result<Vec<u32>, Memory> {
    let mut machine = machine_of(alloc, image, input)?;
    let mut trace = Vec::new(alloc);
    for _ in 0..most_cycles() {
        let at = machine.pc();
        if machine.cycles() > most_cycles() || machine.step().is_some() {
            break;
        }
        if let Some(mark) = marks.get(&at) {
            trace.push(*mark)?;
        }
    }
    drop(machine);
    Ok(trace)
}

fn ended(value: i32, output: Vec<u8>, trace: Vec<u32>) -> ImageRun
    ensures value { result.value ≡ value }
    ensures output { result.output.items ≡ output.items }
{
    ImageRun {
        value,
        output,
        trace,
    }
}

/// The run of an image on an input, where it exits, by the marks at their addresses.
pub fn run(
    alloc: Global,
    image: &Image,
    marks: &BTreeMap<u32, u32>,
    input: &[u8],
) -> Result<Option<ImageRun>, Memory>
    ensures { IfOk result (λ r. IsRunOf image.now default_table input.now r) }
{
    let trace = trace_of(alloc, image, marks, input)?;
    let mut machine = machine_of(alloc, image, input)?;
    match machine.run(most_cycles()) {
        Ending::Exit { value } => Ok(Some(ended(value, machine.into_output(), trace))),
        _ => {
            drop(machine);
            drop(trace);
            Ok(None)
        }
    }
}
