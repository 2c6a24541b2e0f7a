ghost use Rattle.std.specs.Prelude.{◌≡◌, IfOk};
ghost use Rattle.low_ir.specs.Programs.{low_of};
ghost use Rattle.low_ir.specs.Runs.{Going, lrun, run, virtual};
ghost use Rattle.low_eval.specs.Evaluated.{seen, seen_run};

use super::running::{Progress, Running};
use low_ir::{Began, Low};
use std::alloc::Global;
use wcc_base::Memory;

/// A run that has ended: its value, its output and the blocks that began.
#[derive(Drop)]
pub struct Evaluated {
    pub value: u32,
    pub output: Vec<u8>,
    pub trace: Vec<Began>,
}

/// How far a run is.
#[derive(Drop)]
pub enum Outcome {
    Going,
    Done(Evaluated),
    /// The run is not good.
    Bad,
}

/// How far a run that goes on is after so many steps.
#[tactic(auto, using(crate::proofs::Steps::run_step, crate::proofs::Steps::run_done, crate::proofs::Steps::run_bad))]
fn finish<'a>(mut running: Running<'a>, low: &'a Low, steps: u64) -> Result<Outcome, Memory>
    ensures { IfOk result (λ e. seen e ≡ seen_run (run virtual (low_of low.now) steps (Going running.entry))) }
{
    for _ in 0..steps {
        match running.step(low)? {
            Progress::Going => {}
            Progress::Done(value) => {
                let (output, trace) = running.into_world().into_parts();
                return Ok(Outcome::Done(Evaluated {
                    value,
                    output,
                    trace,
                }));
            }
            Progress::Bad => return Ok(Outcome::Bad),
        }
    }
    Ok(Outcome::Going)
}

/// How far the run of a program on an input is after so many steps.
pub fn evaluate(alloc: Global, low: &Low, input: &[u8], steps: u64) -> Result<Outcome, Memory>
    ensures { IfOk result (λ e. seen e ≡ seen_run (lrun (low_of low.now) input.now steps)) }
{
    match Running::first(alloc, low, input)? {
        None => Ok(Outcome::Bad),
        Some(running) => finish(running, low, steps),
    }
}
