// Runs in the high form.
ghost use Rattle.std.specs.Prelude.{IfOk};
ghost use Rattle.high_ir.specs.Programs.{program_of};
ghost use Rattle.high_ir.specs.Runs.{hrun};
ghost use Rattle.high_eval.specs.Evaluated.{run_seen};
ghost use Rattle.try_forms.specs.HighRuns.{IsSeen};

use high_eval::{Evaluated, evaluate};
use high_ir::High;
use std::alloc::Global;
use try_sources::Ended;
use wcc_base::Memory;
use wcc_base::words::signed;

fn shown(run: Option<Evaluated>) -> Option<Ended>
    ensures { IsSeen (run_seen run) result }
{
    match run {
        None => None,
        Some(run) => Some(Ended {
            value: signed(run.value),
            output: run.output,
            trace: run.trace,
        }),
    }
}

/// The good run of a program, if it has one on this input.
pub fn over_variables(alloc: Global, program: &High, input: &[u8]) -> Result<Option<Ended>, Memory>
    ensures { IfOk result (λ r. IsSeen (hrun (program_of program.now) input.now) r) }
{
    let run = evaluate(alloc, program, input)?;
    Ok(shown(run))
}
