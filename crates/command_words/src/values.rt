// What the matches of a command hold.
ghost use Rattle.std.specs.Prelude.{◌≡◌, ◌≤◌, option_map};
ghost use Rattle.std.specs.Option.{ForSome};
ghost use Rattle.clap.specs.Words.{first_of, found_of, rows_of};
ghost use Rattle.command_words.specs.Values.{IsGivenIn, name_of, number_of, placed_number_of, flag_of};

use clap::ArgMatches;

/// The name that stands for a file.
pub fn name<'a>(matches: &ArgMatches<'a>, id: &str) -> &'a str
    ensures { result.now ≡ name_of id.now (rows_of (found_of matches.now)) }
{
    match matches.get_str(id) {
        Some(name) => name,
        None => "",
    }
}

/// The name of an option's file.
pub fn option<'a>(matches: &ArgMatches<'a>, id: &str) -> Option<&'a str>
    ensures { option_map (λ s. s.now) result ≡ first_of id.now (rows_of (found_of matches.now)) }
{
    matches.get_str(id)
}

/// Whether a flag was given.
pub fn flag(matches: &ArgMatches<'_>, id: &str) -> bool
    ensures { result ≡ flag_of id.now (rows_of (found_of matches.now)) }
{
    match matches.get_str(id) {
        Some(text) => text == "true",
        None => false,
    }
}

/// The number of an option.
pub fn number(matches: &ArgMatches<'_>, id: &str, least: u64, most: u64) -> Option<u64>
    requires { IsGivenIn least most id.now (rows_of (found_of matches.now)) }
    ensures value { result ≡ number_of id.now (rows_of (found_of matches.now)) }
    ensures least { ForSome result (λ n. least ≤ n) }
    ensures most { ForSome result (λ n. n ≤ most) }
{
    match matches.get_str(id) {
        Some(text) => match text.parse::<u64>() {
            Ok(number) => Some(number),
            Err(_) => None,
        },
        None => None,
    }
}

/// The number at a place, and `least` where there is none.
pub fn placed_number(matches: &ArgMatches<'_>, id: &str, least: u64, most: u64) -> u64
    requires given { IsGivenIn least most id.now (rows_of (found_of matches.now)) }
    requires range { least ≤ most }
    ensures value { result ≡ placed_number_of id.now least (rows_of (found_of matches.now)) }
    ensures range { (least ≤ result) × (result ≤ most) }
{
    match number(matches, id, least, most) {
        Some(number) => number,
        None => least,
    }
}
