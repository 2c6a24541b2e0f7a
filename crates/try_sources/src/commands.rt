// The words that a program of tests is called with, and its end.
ghost use Rattle.std.specs.Prelude.{◌≡◌, IfErr, MatchResult};
ghost use Rattle.std.specs.Process.{exit_status};
ghost use Rattle.try_sources.specs.declared.fault.Fault.TheVariants.{Memory};

use crate::fault::Fault;
use std::env;
use std::process::ExitCode;
use std::rt::Env;

/// The words behind the program's name.
pub fn words<R: AllocGlobal + Env>(rt: &R) -> Result<Vec<String>, Fault>
    ensures { IfErr result (λ e. e ≡ Memory) }
{
    let Ok(given) = env::args(rt) else {
        return Err(Fault::Memory);
    };
    let Ok(behind) = given.skip(1).collect::<Vec<String>>(rt.alloc()) else {
        return Err(Fault::Memory);
    };
    Ok(behind)
}

/// Ends a program; where a command failed, its line says why.
pub fn end(rt: &impl Print, done: Result<(), Fault>) -> ExitCode
    ensures { MatchResult done (λ _. exit_status result ≡ 0) (λ _. exit_status result ≡ 1) }
{
    match done {
        Ok(()) => ExitCode::from(0),
        Err(fault) => {
            let _ = println!(rt; "{fault}");
            ExitCode::from(1)
        }
    }
}
