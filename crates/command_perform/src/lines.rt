// The lines that a command prints once its files are written, each a row of parts.
ghost use Rattle.std.specs.Prelude.{◌≡◌, ◌<◌, [], ◌∷◌, codes, IfOk};
ghost use Rattle.std.specs.Fmt.{decimal};
ghost use Rattle.std.specs.Char.{digit_char};
ghost use Rattle.report_check.specs.Summaries.{kind_word};
ghost use Rattle.command_perform.specs.Lines.{address_text, all_shown, row, cycles_line, greatest_text, yes_line, exit_line, response_line, late_line, made_line, ran_line, value_line, undefined_line, broken_line, run_line};

use code_flow_answer::Kind;
use rv_sim::Ending;
use std::alloc::Global;
use wcc_base::Memory;

/// A part of a line.
#[derive(Clone, Copy)]
pub enum Part<'a> {
    Word(&'a str),
    /// The bytes of a name.
    Name(&'a [u8]),
    Number(u64),
    Signed(i32),
    /// Eight hexadecimal digits.
    Address(u32),
}

// A hexadecimal digit in lower case.
fn hex_digit(n: u32) -> u8
    requires { n < 16 }
    ensures { result ≡ digit_char n }
{
    if n < 10 {
        b'0' + n as u8
    } else {
        b'a' + (n as u8 - 10)
    }
}

/// An address as it is shown.
pub fn address(at: u32) -> [u8; 8]
    ensures { result ≡ address_text at }
{
    [
        hex_digit(at / 0x1000_0000 % 16),
        hex_digit(at / 0x100_0000 % 16),
        hex_digit(at / 0x10_0000 % 16),
        hex_digit(at / 0x1_0000 % 16),
        hex_digit(at / 0x1000 % 16),
        hex_digit(at / 0x100 % 16),
        hex_digit(at / 0x10 % 16),
        hex_digit(at % 16),
    ]
}

// The word of a kind.
fn kind_word(kind: Kind) -> &'static str
    ensures { result.now ≡ kind_word kind }
{
    match kind {
        Kind::Greatest => "greatest",
        Kind::Empty => "empty",
        Kind::Wide { .. } => "wide",
        Kind::Spent { .. } => "spent",
    }
}

/// The line of a bound.
pub fn cycles_line<'a>(cycles: u64, kind: Kind) -> [Part<'a>; 5]
    ensures { all_shown result ≡ cycles_line cycles kind }
{
    [
        Part::Word("cycles "),
        Part::Number(cycles),
        Part::Word(" "),
        Part::Word(kind_word(kind)),
        Part::Word("\n"),
    ]
}

// The word behind a bound that a flow reaches.
fn greatest_word(greatest: bool) -> &'static str
    ensures { result.now ≡ greatest_text greatest }
{
    if greatest { " greatest" } else { "" }
}

/// The line of a bound that holds.
pub fn yes_line<'a>(cycles: u64, greatest: bool) -> [Part<'a>; 4]
    ensures { all_shown result ≡ yes_line cycles greatest }
{
    [
        Part::Word("yes "),
        Part::Number(cycles),
        Part::Word(greatest_word(greatest)),
        Part::Word("\n"),
    ]
}

/// The line of the response of a task.
pub fn response_line<'a>(name: &'a [u8], response: u64) -> [Part<'a>; 5]
    ensures { all_shown result ≡ response_line name.now response }
{
    [
        Part::Word("response "),
        Part::Name(name),
        Part::Word(" "),
        Part::Number(response),
        Part::Word("\n"),
    ]
}

/// The line of a task that is late.
pub fn late_line<'a>(number: u64) -> [Part<'a>; 3]
    ensures { all_shown result ≡ late_line number }
{
    [Part::Word("late "), Part::Number(number), Part::Word("\n")]
}

/// The line of a source that was made.
pub fn made_line<'a>(bytes: u64) -> [Part<'a>; 3]
    ensures { all_shown result ≡ made_line bytes }
{
    [
        Part::Word("made "),
        Part::Number(bytes),
        Part::Word(" bytes\n"),
    ]
}

/// The line of the run of its image.
pub fn ran_line<'a>(cycles: u64, value: i32, bytes: u64) -> [Part<'a>; 7]
    ensures { all_shown result ≡ ran_line cycles value bytes }
{
    [
        Part::Word("ran "),
        Part::Number(cycles),
        Part::Word(" exit "),
        Part::Signed(value),
        Part::Word(" bytes "),
        Part::Number(bytes),
        Part::Word("\n"),
    ]
}

/// The line of a source's run that is done.
pub fn value_line<'a>(value: i32, bytes: u64) -> [Part<'a>; 5]
    ensures { all_shown result ≡ value_line value bytes }
{
    [
        Part::Word("value "),
        Part::Signed(value),
        Part::Word(" bytes "),
        Part::Number(bytes),
        Part::Word("\n"),
    ]
}

/// The line of a source's run that is undefined.
pub fn undefined_line<'a>(rule: u8, at: u32) -> [Part<'a>; 5]
    ensures { all_shown result ≡ undefined_line rule at }
{
    [
        Part::Word("undefined "),
        Part::Number(u64::from(rule)),
        Part::Word(" at "),
        Part::Number(u64::from(at)),
        Part::Word("\n"),
    ]
}

/// The line of a source's run that breaks an annotation.
pub fn broken_line<'a>(at: u32) -> [Part<'a>; 3]
    ensures { all_shown result ≡ broken_line at }
{
    [
        Part::Word("broken at "),
        Part::Number(u64::from(at)),
        Part::Word("\n"),
    ]
}

// The line of a run that stopped for another cause than a trap.
fn stopped_line<'a>(
    alloc: Global,
    word: &'a str,
    pc: u32,
    cycles: u64,
) -> Result<Vec<Part<'a>>, Memory>
    ensures { IfOk result (λ parts. all_shown parts.items ≡ row (word.now ∷ address_text pc ∷ codes " cycles " ∷ decimal cycles ∷ codes "\n" ∷ [])) }
{
    Ok(Vec::from_slice(
        alloc,
        &[
            Part::Word(word),
            Part::Address(pc),
            Part::Word(" cycles "),
            Part::Number(cycles),
            Part::Word("\n"),
        ],
    )?)
}

// The line of an exit.
fn exit_line<'a>(alloc: Global, value: i32, cycles: u64) -> Result<Vec<Part<'a>>, Memory>
    ensures { IfOk result (λ parts. all_shown parts.items ≡ exit_line value cycles) }
{
    Ok(Vec::from_slice(
        alloc,
        &[
            Part::Word("exit "),
            Part::Signed(value),
            Part::Word(" cycles "),
            Part::Number(cycles),
            Part::Word("\n"),
        ],
    )?)
}

// The line of a trap.
fn trap_line<'a>(alloc: Global, at: u32, kind: u8, cycles: u64) -> Result<Vec<Part<'a>>, Memory>
    ensures { IfOk result (λ parts. all_shown parts.items ≡ run_line (Ending.Trap at kind) 0 cycles) }
{
    Ok(Vec::from_slice(
        alloc,
        &[
            Part::Word("trap "),
            Part::Number(u64::from(kind)),
            Part::Word(" at "),
            Part::Address(at),
            Part::Word(" cycles "),
            Part::Number(cycles),
            Part::Word("\n"),
        ],
    )?)
}

/// The line of a run, by its ending.
pub fn run_line<'a>(
    alloc: Global,
    ending: Ending,
    pc: u32,
    cycles: u64,
) -> Result<Vec<Part<'a>>, Memory>
    ensures { IfOk result (λ parts. all_shown parts.items ≡ run_line ending pc cycles) }
{
    match ending {
        Ending::Exit { value } => exit_line(alloc, value, cycles),
        Ending::Trap { pc: at, kind } => trap_line(alloc, at, kind, cycles),
        Ending::CycleLimit => stopped_line(alloc, "limit at ", pc, cycles),
        Ending::OutputFull => stopped_line(alloc, "full at ", pc, cycles),
    }
}
