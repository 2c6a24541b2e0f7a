ghost use Rattle.std.specs.Prelude.{◌≡◌, IfOk};
ghost use Rattle.high_ir.specs.Programs.{program_of};
ghost use Rattle.high_ir.specs.Runs.{hrun};
ghost use Rattle.high_eval.specs.Ends.{given_of, main_call};
ghost use Rattle.high_eval.specs.Evaluated.{run_seen};

use super::state::State;
use super::statements::{Scope, call};
use high_ir::High;
use std::alloc::Global;
use wcc_base::Memory;

/// A good run: its value, its output and the marks that it passed.
#[derive(Drop)]
pub struct Evaluated {
    pub value: u32,
    pub output: Vec<u8>,
    pub trace: Vec<u32>,
}

/// Calls the main function; the rank of a function is how deep its calls nest.
fn run_main(alloc: Global, program: &High, state: &mut State) -> Result<Option<u32>, Memory>
    ensures { IfOk result (λ r. main_call (program_of program.now) state.old.world state.old.trace ≡ given_of r state.new) }
{
    let rank = program.functions[program.main as usize].rank;
    let scope = Scope {
        alloc,
        functions: &program.functions,
        depth: u64::from(rank) + 1,
        passed: &[],
    };
    call(&scope, program.main, &[], &[], state)
}

/// The good run of a program on an input, or none where its run there is not good.
pub fn evaluate(alloc: Global, program: &High, input: &[u8]) -> Result<Option<Evaluated>, Memory>
    ensures { IfOk result (λ r. run_seen r ≡ hrun (program_of program.now) input.now) }
{
    let mut state = State::new(alloc, &program.objects, input)?;
    match run_main(alloc, program, &mut state)? {
        None => Ok(None),
        Some(value) => {
            let (output, trace) = state.into_parts();
            Ok(Some(Evaluated {
                value,
                output,
                trace,
            }))
        }
    }
}
