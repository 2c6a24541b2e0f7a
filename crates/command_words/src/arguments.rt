// Commands with their arguments.
ghost use Rattle.std.specs.Prelude.{◌≡◌, IfOk, false, map};
ghost use Rattle.clap.specs.Words.{app_of, rule_of};
ghost use Rattle.command_words.specs.Arguments.{file_rule, option_rule, flag_rule, within};
ghost use Rattle.command_words.specs.Commands.{command_with};
ghost use Rattle.command_words.specs.Defined.{rule_by};

use crate::argument::{Argument, Numbers};
use clap::{Arg, ArgAction, Command};
use std::alloc::{AllocError, Global};

// What stands at a place.
fn placed<'a>(alloc: Global, id: &'a str) -> Arg<'a>
    ensures rule { rule_of result ≡ file_rule id.entry.now }
    ensures local { result.global ≡ false }
{
    Arg::new(alloc, id).required(true).action(ArgAction::Set)
}

// What stands behind an option of this name.
fn named<'a>(alloc: Global, id: &'a str) -> Arg<'a>
    ensures rule { rule_of result ≡ option_rule id.entry.now }
    ensures local { result.global ≡ false }
{
    Arg::new(alloc, id).long(id).action(ArgAction::Set)
}

// A flag of this name.
fn flag<'a>(alloc: Global, id: &'a str) -> Arg<'a>
    ensures rule { rule_of result ≡ flag_rule id.entry.now }
    ensures local { result.global ≡ false }
{
    Arg::new(alloc, id).long(id).action(ArgAction::SetTrue)
}

// The argument, which is one of the numbers.
fn within<'a>(argument: Arg<'a>, numbers: Numbers) -> Arg<'a>
    ensures rule { rule_of result ≡ within (rule_of argument.entry) numbers.least numbers.most }
    ensures local { result.global ≡ argument.entry.global }
{
    let range = i64::from(numbers.least)..=(numbers.most as i64);
    argument.value_parser(clap::value_parser!(u64).range(range))
}

// The argument as `clap` has it.
fn made<'a>(alloc: Global, argument: Argument<'a>) -> Arg<'a>
    ensures rule { rule_of result ≡ rule_by argument.entry }
    ensures local { result.global ≡ false }
{
    match argument {
        Argument::File(id) => placed(alloc, id),
        Argument::Number(id, numbers) => within(placed(alloc, id), numbers),
        Argument::FileOption(id) => named(alloc, id),
        Argument::NumberOption(id, numbers) => within(named(alloc, id), numbers),
        Argument::Flag(id) => flag(alloc, id),
    }
}

/// The command with these arguments and nothing else.
pub fn command<'a>(
    alloc: Global,
    name: &'a str,
    arguments: &[Argument<'a>],
) -> Result<Command<'a>, AllocError>
    ensures { IfOk result (λ c. app_of c ≡ command_with name.entry.now (map rule_by arguments.now)) }
{
    let mut command = Command::new(alloc, name);
    'arguments: for argument in arguments {
        command = command.arg(made(alloc, *argument))?;
    }
    Ok(command)
}
