// The second step of a command: what it makes of the contents of its files.
ghost use Rattle.std.specs.Prelude.{◌≡◌, ◌⊎◌, length, IfOk, MatchResult};
ghost use Rattle.wcc_base.specs.declared.status.Status.TheVariants as status;
ghost use Rattle.command_perform.specs.Asked.{command_of};
ghost use Rattle.command_perform.specs.Building.{BuildsOf};
ghost use Rattle.command_perform.specs.Commands.{wanted_of, Refuses, Makes};
ghost use Rattle.command_perform.specs.Ends.{IsEnd, IsRefusal};
ghost use Rattle.command_perform.specs.Outputs.{outputs_of};

use crate::check::make_yes;
use crate::compile::make_compiled;
use crate::contents::{none, one, two};
use crate::evaluate::make_evaluated;
use crate::numbered::make_numbered;
use crate::report::make_summary;
use crate::run::make_run;
use crate::words::Command;
use promise_compiler::Compiler;
use std::alloc::Global;
use wcc_base::{Items, Status};

/// A file that is to be written.
#[derive(Drop)]
pub struct Output<'a> {
    pub name: &'a str,
    pub bytes: Items<u8>,
}

/// What a command has made: the files that are to be written, in order, and the status and the
/// lines of the call once they are.
#[derive(Drop)]
pub struct Made<'a> {
    pub status: Status,
    pub files: Vec<Output<'a>>,
    /// The text of the lines.
    pub lines: Items<u8>,
}

/// Makes what a command asks of the contents of its files, in the order in which they were read. No
/// store and no sink is at hand, so that nothing is begun before all that will be written stands
/// here.
pub fn make<'a, C: Compiler>(
    compiler: &C,
    alloc: Global,
    command: Command<'a>,
    contents: Vec<Items<u8>>,
) -> Result<Made<'a>, Status>
    requires { length contents.items ≡ length (wanted_of (command_of command)) }
    ensures made { MatchResult result
        (λ m. IsEnd m.status × Makes (command_of command.entry) contents.items (outputs_of m))
        (λ s. (s ≡ status.Memory) ⊎ (IsRefusal s × Refuses (command_of command.entry) contents.items s)) }
    ensures built { IfOk result (λ m. BuildsOf C.builds (command_of command.entry) contents.items (outputs_of m)) }
{
    match command {
        Command::Compile(asked) => make_compiled(compiler, alloc, asked, contents),
        Command::Check(asked) => make_yes(alloc, asked, contents),
        Command::Run(asked) => make_run(alloc, asked, contents),
        Command::Eval(asked) => make_evaluated(alloc, asked, two(contents)),
        Command::Report(_) => make_summary(alloc, one(contents)),
        Command::Make(asked) => {
            none(contents);
            make_numbered(compiler, alloc, asked)
        }
    }
}
