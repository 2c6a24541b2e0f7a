// The lines of the statuses that end a command before anything is written.
ghost use Rattle.std.specs.Prelude.{◌≡◌, ◌++◌, [], ◌∷◌, codes};
ghost use Rattle.command_perform.specs.Lines.{shown, all_shown, row};
ghost use Rattle.command_perform.specs.StatusLines.{bound_text, refused_text, failed_line, line_of};
ghost use Rattle.command_perform.specs.Finishing.{Reported};

use crate::lines::Part;
use crate::printing::report;
use wcc_base::{Bound, Sink, Status};

// The word of a quantity that has a limit.
fn bound_word(which: Bound) -> &'static str
    ensures { result.now ≡ bound_text which }
{
    match which {
        Bound::Source => "source",
        Bound::Table => "table",
        Bound::Image => "image",
        Bound::Report => "report",
        Bound::Input => "input",
        Bound::Tasks => "tasks",
        Bound::Depth => "depth",
        Bound::Nodes => "nodes",
        Bound::Functions => "functions",
        Bound::Parameters => "parameters",
        Bound::Markers => "markers",
        Bound::Restrictions => "restrictions",
        Bound::Globals => "globals",
        Bound::Locals => "locals",
        Bound::Most => "most",
    }
}

// What is refused, and the detail behind it.
fn refused_parts(code: u8, detail: u8) -> (Part<'static>, Part<'static>)
    ensures { shown result.0 ++ shown result.1 ≡ refused_text code detail }
{
    let number = Part::Number(u64::from(detail));
    let none = Part::Word("");
    match code {
        1 => (Part::Word("bad"), none),
        2 => (Part::Word("outside"), none),
        3 => (Part::Word("syntax"), none),
        4 => (Part::Word("type-"), number),
        5 => (Part::Word("recursion"), none),
        6 => (Part::Word("pragma"), none),
        7 => (Part::Word("name"), none),
        8 => (Part::Word("bound"), none),
        9 => (Part::Word("table-"), number),
        10 => (Part::Word("image-"), number),
        12 => (Part::Word("tasks-"), number),
        _ => (Part::Word("report-"), number),
    }
}

// A word, and a part behind it.
fn told(word: &'static str, part: Part<'static>) -> [Part<'static>; 5]
    ensures { all_shown result ≡ row (word.now ∷ shown part.entry ∷ codes "\n" ∷ []) }
{
    let none = Part::Word("");
    [Part::Word(word), part, Part::Word("\n"), none, none]
}

// A word, and two parts behind it.
fn told_two(word: &'static str, first: Part<'static>, second: Part<'static>) -> [Part<'static>; 5]
    ensures { all_shown result ≡ row (word.now ∷ shown first.entry ∷ codes " " ∷ shown second.entry ∷ codes "\n" ∷ []) }
{
    [
        Part::Word(word),
        first,
        Part::Word(" "),
        second,
        Part::Word("\n"),
    ]
}

// A line without numbers.
fn told_alone(line: &'static str) -> [Part<'static>; 5]
    ensures { all_shown result ≡ row (line.now ∷ []) }
{
    let none = Part::Word("");
    [Part::Word(line), none, none, none, none]
}

// What of a certificate, or of what it speaks of, fails.
fn failed_parts(code: u8, detail: u8, at: u32) -> [Part<'static>; 5]
    ensures { all_shown result ≡ failed_line code detail at }
{
    let number = Part::Number(u64::from(at));
    let address = Part::Address(at);
    let detail = Part::Number(u64::from(detail));
    match code {
        1 => told_two("no image-", detail, number),
        2 => told_two("no report-", detail, number),
        3 => told("no claim ", number),
        4 => told("no code ", address),
        5 => told("no missing ", address),
        6 => told("no sign ", number),
        7 => told("no wide ", address),
        8 => told_two("no move ", address, detail),
        9 => told_alone("no value\n"),
        10 => told("no flow ", address),
        11 => told("no unmet ", number),
        12 => told_alone("no greatest\n"),
        13 => told_alone("no empty\n"),
        _ => told("no share ", address),
    }
}

// Prints what is refused.
fn report_refused<O: Sink>(out: &mut O, code: u8, detail: u8, at: u32) -> Status
    ensures { Reported (Status.Refused code detail at) (line_of (Status.Refused code detail at))
        (O.state out.old) (O.state out.new) result }
{
    let (what, which) = refused_parts(code, detail);
    report(
        out,
        Status::Refused { code, detail, at },
        &[
            Part::Word("refused "),
            what,
            which,
            Part::Word(" at "),
            Part::Number(u64::from(at)),
            Part::Word("\n"),
        ],
    )
}

// Prints a limit that is passed.
fn report_limit<O: Sink>(out: &mut O, which: Bound, found: u64) -> Status
    ensures { Reported (Status.Limit which found) (line_of (Status.Limit which found))
        (O.state out.old) (O.state out.new) result }
{
    report(
        out,
        Status::Limit { which, found },
        &[
            Part::Word("limit "),
            Part::Word(bound_word(which)),
            Part::Word(" "),
            Part::Number(found),
            Part::Word("\n"),
        ],
    )
}

/// Puts the line of a status, and says how the call ends.
pub fn report_status<O: Sink>(out: &mut O, status: Status) -> Status
    ensures { Reported status (line_of status) (O.state out.old) (O.state out.new) result }
{
    match status {
        Status::Refused { code, detail, at } => report_refused(out, code, detail, at),
        Status::Usage => report(out, status, &[Part::Word("usage\n")]),
        Status::Limit { which, found } => report_limit(out, which, found),
        Status::ReadFault => report(out, status, &[Part::Word("read fault\n")]),
        Status::WriteFault => report(out, status, &[Part::Word("write fault\n")]),
        Status::Memory => report(out, status, &[Part::Word("memory\n")]),
        Status::No { code, detail, at } => report(out, status, &failed_parts(code, detail, at)),
        Status::Done | Status::Stopped { .. } => report(out, status, &[]),
    }
}
