ghost use Rattle.parse_grammar.specs.Law.{CountsTrue, DeepensTrue, GoesTrue, IsUnambiguous, ReadsBack, ReadsTrue, StopsTrue};

/// No list of tokens is the spelling of two well-formed units. Units that differ only in how their
/// names are numbered count as one, since they are spelled with the bytes of their names.
pub fn spelled_once()
    ensures { IsUnambiguous }
{}

/// The machine reads back each well-formed unit from its spelling.
pub fn reads_back()
    ensures { ReadsBack }
{}

/// What the machine reads is well formed, and the tokens are its spelling.
pub fn reads_true()
    ensures { ReadsTrue }
{}

/// Where the machine stops at a token, no well-formed unit's spelling begins with the tokens up to it.
pub fn stops_true()
    ensures { StopsTrue }
{}

/// Each well-formed unit whose spelling begins with tokens is as deep as the machine's state says.
pub fn deepens_true()
    ensures { DeepensTrue }
{}

/// A well-formed unit has at most one node more than its spelling has tokens.
pub fn counts_true()
    ensures { CountsTrue }
{}

/// Where the machine goes on, the tokens that it has taken begin the spelling of a well-formed unit.
pub fn goes_true()
    ensures { GoesTrue }
{}
