// The words of `respond`.
ghost use Rattle.std.specs.Prelude.{◌≡◌, IfOk};
ghost use Rattle.clap.specs.Words.{app_of, found_of, rows_of};
ghost use Rattle.command_words.specs.Commands.{respond_command};
ghost use Rattle.command_words.specs.Asked.{respond_asked};
ghost use Rattle.command_words.specs.Held.{request_of};

use crate::argument::Argument;
use crate::request::{Request, RespondRequest};
use crate::{arguments, values};
use clap::{ArgMatches, Command};
use std::alloc::{AllocError, Global};

/// The definition of `respond`.
pub fn command<'a>(alloc: Global) -> Result<Command<'a>, AllocError>
    ensures { IfOk result (λ c. app_of c ≡ respond_command) }
{
    arguments::command(
        alloc,
        "respond",
        &[Argument::File("TASKS"), Argument::FileOption("table")],
    )
}

/// What the matches ask.
pub fn request<'a>(matches: &ArgMatches<'a>) -> Request<'a>
    ensures { request_of result ≡ respond_asked (rows_of (found_of matches.now)) }
{
    Request::Respond(RespondRequest {
        tasks: values::name(matches, "TASKS"),
        table: values::option(matches, "table"),
    })
}
