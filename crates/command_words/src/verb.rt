// The commands by the words that name them.
ghost use Rattle.std.specs.Prelude.{◌≡◌};
ghost use Rattle.command_words.specs.Verbs.{verb_of};

/// A command.
#[derive(Clone, Copy)]
pub enum Verb {
    Compile,
    Check,
    Run,
    Eval,
    Report,
    Make,
    Respond,
}

/// The command that a word names.
pub fn verb_of(word: &str) -> Option<Verb>
    ensures { result ≡ verb_of word.now }
{
    if word == "compile" {
        return Some(Verb::Compile);
    }
    if word == "check" {
        return Some(Verb::Check);
    }
    if word == "run" {
        return Some(Verb::Run);
    }
    if word == "eval" {
        return Some(Verb::Eval);
    }
    if word == "report" {
        return Some(Verb::Report);
    }
    if word == "make" {
        return Some(Verb::Make);
    }
    if word == "respond" {
        return Some(Verb::Respond);
    }
    None
}
