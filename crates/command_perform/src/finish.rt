// The last step of a command: it alone writes files and prints lines. It takes no memory of its own.
ghost use Rattle.std.specs.Prelude.{◌≡◌, map, OnOk, OnErr, MatchResult};
ghost use Rattle.wcc_base.specs.Outside.{CountsWrite};
ghost use Rattle.command_perform.specs.Outputs.{outputs_of, file_of_output};
ghost use Rattle.command_perform.specs.StatusLines.{line_of};
ghost use Rattle.command_perform.specs.Finishing.{all_put, Partly, Reported, Finished};

use crate::files::write_all;
use crate::make::{Made, Output};
use crate::printing::report_text;
use crate::status_lines::report_status;
use wcc_base::{Fault, Sink, Status, Store};

// Writes files in order.
fn write_each<S: Store>(store: &mut S, files: &[Output]) -> Result<(), Fault>
    ensures ok { OnOk result ((S.state store.new).files ≡ all_put (map file_of_output files.now) (S.state store.old).files) }
    ensures err { OnErr result (Partly (map file_of_output files.now) (S.state store.old).files (S.state store.new).files) }
    ensures counts { CountsWrite (S.state store.old) (S.state store.new) result }
{
    'files: for file in files {
        match write_all(store, file.name, file.bytes.as_slice()) {
            Ok(()) => {}
            Err(fault) => return Err(fault),
        }
    }
    Ok(())
}

// Writes what was made, and prints its lines.
fn finish_made<S: Store, O: Sink>(store: &mut S, out: &mut O, made: &Made) -> Status
    ensures { Finished (outputs_of made.now) (S.state store.old) (S.state store.new) (O.state out.old) (O.state out.new) result }
{
    match write_each(store, &made.files) {
        Ok(()) => report_text(out, made.status, made.lines.as_slice()),
        Err(Fault::Failed) => report_status(out, Status::WriteFault),
        Err(Fault::Memory) => report_status(out, Status::Memory),
    }
}

/// Writes and prints what was made, or prints why nothing was.
pub fn finish<S: Store, O: Sink>(store: &mut S, out: &mut O, made: Result<Made, Status>) -> Status
    ensures { MatchResult made.entry
        (λ m. Finished (outputs_of m) (S.state store.old) (S.state store.new) (O.state out.old) (O.state out.new) result)
        (λ s. (S.state store.new ≡ S.state store.old) × Reported s (line_of s) (O.state out.old) (O.state out.new) result) }
{
    match made {
        Ok(made) => {
            let status = finish_made(store, out, &made);
            drop(made);
            status
        }
        Err(status) => report_status(out, status),
    }
}
