ghost use Rattle.std.specs.Prelude.{◌≡◌, IfOk};
ghost use Rattle.low_eval.specs.Evaluated.{seen};
ghost use Rattle.low_ir.specs.Placings.{placed_of};
ghost use Rattle.low_ir.specs.Places.{places, prun};
ghost use Rattle.low_ir.specs.Runs.{Going, run};
ghost use Rattle.register_eval.specs.Seen.{seen_run};
ghost use Rattle.register_eval.specs.Stands.{running_of};

use super::running::Running;
use low_eval::{Evaluated, Outcome, Progress};
use low_ir::LowReg;
use std::alloc::Global;
use wcc_base::Memory;

/// How far a run that goes on is after so many steps.
#[tactic(auto, using(crate::proofs::Steps::run_step, crate::proofs::Steps::run_done, crate::proofs::Steps::run_bad))]
fn finish<'a>(mut running: Running<'a>, code: &'a LowReg, steps: u64) -> Result<Outcome, Memory>
    ensures { IfOk result (λ e. seen e ≡ seen_run (run places (placed_of code.now) steps (Going (running_of running.entry)))) }
{
    for _ in 0..steps {
        match running.step(code)? {
            Progress::Going => {}
            Progress::Done(value) => {
                let (output, trace) = running.into_world().into_parts();
                return Ok(Outcome::Done(Evaluated {
                    value,
                    output,
                    trace,
                }));
            }
            Progress::Bad => return Ok(Outcome::Bad),
        }
    }
    Ok(Outcome::Going)
}

/// How far the run of a program over its places on an input is after so many steps.
pub fn evaluate(alloc: Global, code: &LowReg, input: &[u8], steps: u64) -> Result<Outcome, Memory>
    ensures { IfOk result (λ e. seen e ≡ seen_run (prun (placed_of code.now) input.now steps)) }
{
    match Running::first(alloc, code, input)? {
        None => Ok(Outcome::Bad),
        Some(running) => finish(running, code, steps),
    }
}
