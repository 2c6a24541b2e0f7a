// The words of `check`.
ghost use Rattle.std.specs.Prelude.{◌≡◌, IfOk};
ghost use Rattle.clap.specs.Words.{app_of, found_of, rows_of};
ghost use Rattle.command_words.specs.Commands.{check_command};
ghost use Rattle.command_words.specs.Asked.{check_asked};
ghost use Rattle.command_words.specs.Held.{request_of};

use crate::argument::Argument;
use crate::request::{CheckRequest, Request};
use crate::{arguments, values};
use clap::{ArgMatches, Command};
use std::alloc::{AllocError, Global};

/// The definition of `check`.
pub fn command<'a>(alloc: Global) -> Result<Command<'a>, AllocError>
    ensures { IfOk result (λ c. app_of c ≡ check_command) }
{
    arguments::command(
        alloc,
        "check",
        &[
            Argument::File("IMAGE"),
            Argument::File("REPORT"),
            Argument::FileOption("table"),
        ],
    )
}

/// What the matches ask.
pub fn request<'a>(matches: &ArgMatches<'a>) -> Request<'a>
    ensures { request_of result ≡ check_asked (rows_of (found_of matches.now)) }
{
    Request::Check(CheckRequest {
        image: values::name(matches, "IMAGE"),
        report: values::name(matches, "REPORT"),
        table: values::option(matches, "table"),
    })
}
