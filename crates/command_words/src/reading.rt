// What words ask.
ghost use Rattle.std.specs.Prelude.{◌≡◌, IfOk, map, option_map, string_bytes};
ghost use Rattle.clap.specs.Words.{app_of, found_of, rows_of};
ghost use Rattle.command_words.specs.Asked.{asked_by, taken};
ghost use Rattle.command_words.specs.Held.{request_of};
ghost use Rattle.command_words.specs.Verbs.{AreGivenTo, asked_of, command_of};

use crate::matching::matches;
use crate::names::distinct;
use crate::request::Request;
use crate::verb::{Verb, verb_of};
use crate::{check, compile, eval, make, report, respond, run};
use clap::{ArgMatches, Command};
use std::alloc::{AllocError, Global};
use wcc_base::Memory;

// The definition of a command.
fn command<'a>(alloc: Global, verb: Verb) -> Result<Command<'a>, AllocError>
    ensures { IfOk result (λ c. app_of c ≡ command_of verb) }
{
    match verb {
        Verb::Compile => compile::command(alloc),
        Verb::Check => check::command(alloc),
        Verb::Run => run::command(alloc),
        Verb::Eval => eval::command(alloc),
        Verb::Report => report::command(alloc),
        Verb::Make => make::command(alloc),
        Verb::Respond => respond::command(alloc),
    }
}

// What the matches of a command ask.
fn request<'a>(verb: Verb, matches: &ArgMatches<'a>) -> Request<'a>
    requires { AreGivenTo verb (rows_of (found_of matches.now)) }
    ensures { request_of result ≡ asked_of verb (rows_of (found_of matches.now)) }
{
    match verb {
        Verb::Compile => compile::request(matches),
        Verb::Check => check::request(matches),
        Verb::Run => run::request(matches),
        Verb::Eval => eval::request(matches),
        Verb::Report => report::request(matches),
        Verb::Make => make::request(matches),
        Verb::Respond => respond::request(matches),
    }
}

// What the words ask of a command, if they ask for anything.
fn read<'a>(alloc: Global, verb: Verb, words: &'a [String]) -> Result<Option<Request<'a>>, Memory>
    ensures { IfOk result (λ o. option_map request_of o ≡ taken (command_of verb) (asked_of verb) (map string_bytes words.now)) }
{
    let command = command(alloc, verb)?;
    match matches(command, words) {
        Ok(Some(matches)) => {
            let asked = request(verb, &matches);
            drop(matches);
            Ok(distinct(asked))
        }
        Ok(None) => Ok(None),
        Err(_) => Err(Memory),
    }
}

/// What the words behind the program's name ask, if they ask for a command.
pub fn read_words<'a>(alloc: Global, words: &'a [String]) -> Result<Option<Request<'a>>, Memory>
    ensures { IfOk result (λ o. option_map request_of o ≡ asked_by (map string_bytes words.now)) }
{
    let Some(word) = words.first() else {
        return Ok(None);
    };
    match verb_of(word.as_str()) {
        Some(verb) => read(alloc, verb, words),
        None => Ok(None),
    }
}
