// What a command's definition makes of words.
ghost use Rattle.std.specs.Prelude.{◌≡◌, IfOk, MatchOption, map, string_bytes, true, false};
ghost use Rattle.clap.specs.Words.{app_of, is_simple_and_free};
ghost use Rattle.command_words.specs.Asked.{accepts};
ghost use Rattle.command_words.specs.Matching.{IsMatch};

use clap::error::ErrorKind;
use clap::{ArgMatches, Command};
use wcc_base::Memory;

/// The matches of the command on the words, and nothing where its definition refuses them.
pub fn matches<'a>(
    command: Command<'a>,
    words: &'a [String],
) -> Result<Option<ArgMatches<'a>>, Memory>
    requires { is_simple_and_free (app_of command) ≡ true }
    ensures { IfOk result (λ o. MatchOption o (accepts (app_of command.entry) (map string_bytes words.now) ≡ false) (IsMatch command.entry (map string_bytes words.now))) }
{
    match command.try_get_matches_from(words) {
        Ok(matches) => Ok(Some(matches)),
        Err(error) => match error.kind() {
            ErrorKind::OutOfMemory => Err(Memory),
            _ => Ok(None),
        },
    }
}
