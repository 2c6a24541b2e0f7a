// The words of `report`.
ghost use Rattle.std.specs.Prelude.{◌≡◌, IfOk};
ghost use Rattle.clap.specs.Words.{app_of, found_of, rows_of};
ghost use Rattle.command_words.specs.Commands.{report_command};
ghost use Rattle.command_words.specs.Asked.{report_asked};
ghost use Rattle.command_words.specs.Held.{request_of};

use crate::argument::Argument;
use crate::request::{ReportRequest, Request};
use crate::{arguments, values};
use clap::{ArgMatches, Command};
use std::alloc::{AllocError, Global};

/// The definition of `report`.
pub fn command<'a>(alloc: Global) -> Result<Command<'a>, AllocError>
    ensures { IfOk result (λ c. app_of c ≡ report_command) }
{
    arguments::command(alloc, "report", &[Argument::File("REPORT")])
}

/// What the matches ask.
pub fn request<'a>(matches: &ArgMatches<'a>) -> Request<'a>
    ensures { request_of result ≡ report_asked (rows_of (found_of matches.now)) }
{
    Request::Report(ReportRequest {
        report: values::name(matches, "REPORT"),
    })
}
