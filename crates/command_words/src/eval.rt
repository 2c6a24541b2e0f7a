// The words of `eval`.
ghost use Rattle.std.specs.Prelude.{◌≡◌, IfOk};
ghost use Rattle.clap.specs.Words.{app_of, found_of, rows_of};
ghost use Rattle.command_words.specs.Commands.{eval_command};
ghost use Rattle.command_words.specs.Asked.{eval_asked};
ghost use Rattle.command_words.specs.Held.{request_of};

use crate::argument::Argument;
use crate::request::{EvalRequest, Request};
use crate::{arguments, values};
use clap::{ArgMatches, Command};
use std::alloc::{AllocError, Global};

/// The definition of `eval`.
pub fn command<'a>(alloc: Global) -> Result<Command<'a>, AllocError>
    ensures { IfOk result (λ c. app_of c ≡ eval_command) }
{
    arguments::command(
        alloc,
        "eval",
        &[
            Argument::File("SOURCE"),
            Argument::File("INPUT"),
            Argument::File("OUTPUT"),
            Argument::Flag("derive"),
        ],
    )
}

/// What the matches ask.
pub fn request<'a>(matches: &ArgMatches<'a>) -> Request<'a>
    ensures { request_of result ≡ eval_asked (rows_of (found_of matches.now)) }
{
    Request::Eval(EvalRequest {
        source: values::name(matches, "SOURCE"),
        input: values::name(matches, "INPUT"),
        output: values::name(matches, "OUTPUT"),
        derive: values::flag(matches, "derive"),
    })
}
