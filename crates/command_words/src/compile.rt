// The words of `compile`.
ghost use Rattle.std.specs.Prelude.{◌≡◌, IfOk, codes};
ghost use Rattle.clap.specs.Words.{app_of, found_of, rows_of};
ghost use Rattle.command_words.specs.Commands.{compile_command};
ghost use Rattle.command_words.specs.Values.{IsGivenIn};
ghost use Rattle.command_words.specs.Asked.{compile_asked};
ghost use Rattle.command_words.specs.Held.{request_of};

use crate::argument::{Argument, Numbers};
use crate::request::{CompileRequest, Request};
use crate::{arguments, values};
use clap::{ArgMatches, Command};
use std::alloc::{AllocError, Global};

const SPM_MOST: u64 = 65_536;

const UNROLL_MOST: u64 = 64;

const INLINE_MOST: u64 = 10_000;

/// The definition of `compile`.
pub fn command<'a>(alloc: Global) -> Result<Command<'a>, AllocError>
    ensures { IfOk result (λ c. app_of c ≡ compile_command) }
{
    arguments::command(
        alloc,
        "compile",
        &[
            Argument::File("SOURCE"),
            Argument::File("IMAGE"),
            Argument::File("REPORT"),
            Argument::NumberOption(
                "spm",
                Numbers {
                    least: 0,
                    most: SPM_MOST,
                },
            ),
            Argument::NumberOption(
                "unroll",
                Numbers {
                    least: 1,
                    most: UNROLL_MOST,
                },
            ),
            Argument::NumberOption(
                "inline",
                Numbers {
                    least: 0,
                    most: INLINE_MOST,
                },
            ),
            Argument::FileOption("table"),
            Argument::Flag("derive"),
        ],
    )
}

/// What the matches ask.
pub fn request<'a>(matches: &ArgMatches<'a>) -> Request<'a>
    requires spm { IsGivenIn 0 65536 (codes "spm") (rows_of (found_of matches.now)) }
    requires unroll { IsGivenIn 1 64 (codes "unroll") (rows_of (found_of matches.now)) }
    requires inline { IsGivenIn 0 10000 (codes "inline") (rows_of (found_of matches.now)) }
    ensures { request_of result ≡ compile_asked (rows_of (found_of matches.now)) }
{
    Request::Compile(CompileRequest {
        source: values::name(matches, "SOURCE"),
        image: values::name(matches, "IMAGE"),
        report: values::name(matches, "REPORT"),
        spm: values::number(matches, "spm", 0, SPM_MOST),
        unroll: values::number(matches, "unroll", 1, UNROLL_MOST),
        inline: values::number(matches, "inline", 0, INLINE_MOST),
        table: values::option(matches, "table"),
        derive: values::flag(matches, "derive"),
    })
}
