// A command from its words to its status.
ghost use Rattle.std.specs.Prelude.{◌≡◌, ◌⊎◌, map, string_bytes, IfOk, MatchResult, Some};
ghost use Rattle.wcc_base.specs.declared.status.Status.TheVariants as status;
ghost use Rattle.command_perform.specs.Words.{asked_by, IsInRange, Named};
ghost use Rattle.command_perform.specs.Asked.{command_of, asked_of};
ghost use Rattle.command_perform.specs.Building.{AreBuilt, BuildsIn};
ghost use Rattle.command_perform.specs.Outputs.{outputs_of};
ghost use Rattle.command_perform.specs.Gathering.{OnlyRead};
ghost use Rattle.command_perform.specs.Ends.{IsEnd, MakesIn, Fails, EndsWith};

use crate::finish::finish;
use crate::gather::gather;
use crate::make::{Made, make};
use crate::respond::respond;
use crate::status_lines::report_status;
use crate::words::{Asked, Command, read_command};
use promise_compiler::Compiler;
use std::alloc::Global;
use wcc_base::{Sink, Status, Store};

// Reads the files that the words name, and makes of them what the command asks.
fn work_on_files<'a, C: Compiler, S: Store>(
    compiler: &C,
    alloc: Global,
    store: &mut S,
    command: Command<'a>,
) -> Result<Made<'a>, Status>
    ensures made { MatchResult result
        (λ m. IsEnd m.status × MakesIn (Named (command_of command.entry)) (S.state store.old).files (outputs_of m))
        (λ s. Fails (Named (command_of command.entry)) (S.state store.old).files s) }
    ensures built { IfOk result (λ m. BuildsIn C.builds (Named (command_of command.entry)) (S.state store.old).files (outputs_of m)) }
    ensures reads { OnlyRead (S.state store.old) (S.state store.new) result }
{
    match gather(alloc, store, command) {
        Ok(contents) => make(compiler, alloc, command, contents),
        Err(status) => Err(status),
    }
}

// Reads what is asked for, and makes of it what is asked.
fn work<'a, C: Compiler, S: Store>(
    compiler: &C,
    alloc: Global,
    store: &mut S,
    asked: Asked<'a>,
) -> Result<Made<'a>, Status>
    ensures made { MatchResult result
        (λ m. IsEnd m.status × MakesIn (asked_of asked.entry) (S.state store.old).files (outputs_of m))
        (λ s. Fails (asked_of asked.entry) (S.state store.old).files s) }
    ensures built { IfOk result (λ m. BuildsIn C.builds (asked_of asked.entry) (S.state store.old).files (outputs_of m)) }
    ensures reads { OnlyRead (S.state store.old) (S.state store.new) result }
{
    match asked {
        Asked::Named(command) => work_on_files(compiler, alloc, store, command),
        Asked::Respond(asked) => respond(alloc, store, asked),
    }
}

// Does what is asked, and prints how it ended.
fn perform_asked<C: Compiler, S: Store, O: Sink>(
    compiler: &C,
    alloc: Global,
    asked: Asked,
    store: &mut S,
    out: &mut O,
) -> Status
    ensures ends { EndsWith (Some (asked_of asked.entry)) (S.state store.old) (S.state store.new) (O.state out.old) (O.state out.new) result }
    ensures built { result ≡ status.Done → AreBuilt C.builds (Some (asked_of asked.entry)) (S.state store.old) (S.state store.new) }
{
    let made = work(compiler, alloc, store, asked);
    finish(store, out, made)
}

/// Does what the words ask, by this compiler where something is compiled, and prints how it ended. The words come without the
/// program's name.
pub fn perform<C: Compiler, S: Store, O: Sink>(
    compiler: &C,
    alloc: Global,
    words: &[String],
    store: &mut S,
    out: &mut O,
) -> Status
    ensures ends { EndsWith (asked_by (map string_bytes words.now)) (S.state store.old) (S.state store.new) (O.state out.old) (O.state out.new) result }
    ensures built { result ≡ status.Done → AreBuilt C.builds (asked_by (map string_bytes words.now)) (S.state store.old) (S.state store.new) }
    ensures range { (result ≡ status.Memory) ⊎ IsInRange (asked_by (map string_bytes words.now)) }
{
    match read_command(alloc, words) {
        Ok(Some(asked)) => perform_asked(compiler, alloc, asked, store, out),
        Ok(None) => report_status(out, Status::Usage),
        Err(_) => report_status(out, Status::Memory),
    }
}
