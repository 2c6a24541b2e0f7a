// The words of `make`.
ghost use Rattle.std.specs.Prelude.{◌≡◌, IfOk, codes};
ghost use Rattle.clap.specs.Words.{app_of, found_of, rows_of};
ghost use Rattle.command_words.specs.Commands.{make_command};
ghost use Rattle.command_words.specs.Values.{IsGivenIn};
ghost use Rattle.command_words.specs.Asked.{make_asked};
ghost use Rattle.command_words.specs.Held.{request_of};

use crate::argument::{Argument, Numbers};
use crate::request::{MakeRequest, Request};
use crate::{arguments, values};
use clap::{ArgMatches, Command};
use std::alloc::{AllocError, Global};

/// The definition of `make`.
pub fn command<'a>(alloc: Global) -> Result<Command<'a>, AllocError>
    ensures { IfOk result (λ c. app_of c ≡ make_command) }
{
    arguments::command(
        alloc,
        "make",
        &[
            Argument::Number(
                "N",
                Numbers {
                    least: 1,
                    most: 100,
                },
            ),
            Argument::File("SOURCE"),
            Argument::File("IMAGE"),
            Argument::File("REPORT"),
        ],
    )
}

/// What the matches ask.
pub fn request<'a>(matches: &ArgMatches<'a>) -> Request<'a>
    requires { IsGivenIn 1 100 (codes "N") (rows_of (found_of matches.now)) }
    ensures { request_of result ≡ make_asked (rows_of (found_of matches.now)) }
{
    Request::Make(MakeRequest {
        number: values::placed_number(matches, "N", 1, 100),
        source: values::name(matches, "SOURCE"),
        image: values::name(matches, "IMAGE"),
        report: values::name(matches, "REPORT"),
    })
}
