// Runs in the low form, by the marks that they pass.
ghost use Rattle.std.specs.Prelude.{◌≡◌, IfOk};
ghost use Rattle.try_forms.specs.LowRuns.{IsSeen};
ghost use Rattle.low_eval.specs.Evaluated.{seen, seen_run};
ghost use Rattle.low_ir.specs.Places.{prun};
ghost use Rattle.low_ir.specs.Placings.{placed_of};
ghost use Rattle.low_ir.specs.Programs.{low_of};
ghost use Rattle.low_ir.specs.Runs.{lrun};
ghost use Rattle.low_ir.specs.Turns.{mark_at, marks_passed};
ghost use Rattle.register_eval.specs.Seen as placed;

use low_eval::Outcome;
use low_ir::{Began, Low, LowReg};
use std::alloc::Global;
use try_sources::Ended;
use wcc_base::Memory;
use wcc_base::words::signed;

/// The mark of a block.
fn mark_of(low: &Low, began: Began) -> Option<u32>
    ensures { result ≡ mark_at (low_of low.now) began }
{
    match low.functions.get(began.function as usize) {
        None => None,
        Some(function) => match function.blocks.get(began.block as usize) {
            None => None,
            Some(block) => block.mark,
        },
    }
}

/// The marks that blocks pass.
#[tactic(auto, using(crate::proofs::Passing::mark_passed, crate::proofs::Passing::no_mark_passed))]
fn marks_of(alloc: Global, low: &Low, trace: &[Began]) -> Result<Vec<u32>, Memory>
    ensures { IfOk result (λ m. m.items ≡ marks_passed (low_of low.now) trace.now) }
{
    let mut marks = Vec::new(alloc);
    for began in trace {
        match mark_of(low, *began) {
            None => {}
            Some(mark) => marks.push(mark)?,
        }
    }
    Ok(marks)
}

/// An ended run with its marks.
fn marked(alloc: Global, low: &Low, outcome: Outcome) -> Result<Option<Ended>, Memory>
    ensures { IfOk result (λ r. IsSeen (low_of low.now) (seen outcome) r) }
{
    match outcome {
        Outcome::Going => Ok(None),
        Outcome::Bad => Ok(None),
        Outcome::Done(run) => {
            let trace = marks_of(alloc, low, &run.trace)?;
            Ok(Some(Ended {
                value: signed(run.value),
                output: run.output,
                trace,
            }))
        }
    }
}

/// The run of a program over virtual registers, where it ends after so many steps.
pub fn over_registers(
    alloc: Global,
    low: &Low,
    input: &[u8],
    steps: u64,
) -> Result<Option<Ended>, Memory>
    ensures { IfOk result (λ r. IsSeen (low_of low.now) (seen_run (lrun (low_of low.now) input.now steps)) r) }
{
    let outcome = low_eval::evaluate(alloc, low, input, steps)?;
    marked(alloc, low, outcome)
}

/// The run of a program over places, where it ends after so many steps.
pub fn over_places(
    alloc: Global,
    code: &LowReg,
    input: &[u8],
    steps: u64,
) -> Result<Option<Ended>, Memory>
    ensures { IfOk result (λ r. IsSeen (low_of code.now.low) (placed.seen_run (prun (placed_of code.now) input.now steps)) r) }
{
    let outcome = register_eval::evaluate(alloc, code, input, steps)?;
    marked(alloc, &code.low, outcome)
}
