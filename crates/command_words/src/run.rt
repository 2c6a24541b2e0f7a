// The words of `run`.
ghost use Rattle.std.specs.Prelude.{◌≡◌, IfOk, codes};
ghost use Rattle.clap.specs.Words.{app_of, found_of, rows_of};
ghost use Rattle.command_words.specs.Commands.{run_command};
ghost use Rattle.command_words.specs.Values.{IsGivenIn};
ghost use Rattle.command_words.specs.Asked.{run_asked};
ghost use Rattle.command_words.specs.Held.{request_of};

use crate::argument::{Argument, Numbers};
use crate::request::{Request, RunRequest};
use crate::{arguments, values};
use clap::{ArgMatches, Command};
use std::alloc::{AllocError, Global};

// 2^62.
const LIMIT_MOST: u64 = 1 << 62;

/// The definition of `run`.
pub fn command<'a>(alloc: Global) -> Result<Command<'a>, AllocError>
    ensures { IfOk result (λ c. app_of c ≡ run_command) }
{
    arguments::command(
        alloc,
        "run",
        &[
            Argument::File("IMAGE"),
            Argument::File("INPUT"),
            Argument::File("OUTPUT"),
            Argument::NumberOption(
                "limit",
                Numbers {
                    least: 0,
                    most: LIMIT_MOST,
                },
            ),
            Argument::FileOption("table"),
        ],
    )
}

/// What the matches ask.
pub fn request<'a>(matches: &ArgMatches<'a>) -> Request<'a>
    requires { IsGivenIn 0 4611686018427387904 (codes "limit") (rows_of (found_of matches.now)) }
    ensures { request_of result ≡ run_asked (rows_of (found_of matches.now)) }
{
    Request::Run(RunRequest {
        image: values::name(matches, "IMAGE"),
        input: values::name(matches, "INPUT"),
        output: values::name(matches, "OUTPUT"),
        limit: values::number(matches, "limit", 0, LIMIT_MOST),
        table: values::option(matches, "table"),
    })
}
