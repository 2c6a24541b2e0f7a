// The values of constants (C11 6.4.4.1, 6.4.4.4).
ghost use Rattle.std.specs.Prelude.{◌≡◌, ◌<◌, ◌≤◌, length};
ghost use Rattle.c_tree.specs.Constants.{character, integer, integer_value, simple_escape, type_of, IsCharacter, IsInteger};

use crate::digits::{base_of, digits_end, digits_start, has_l, has_u, number};
use c_tree::token::{Constant, ConstantType};

fn integer_value(source: &[u8], at: usize, end: usize) -> u32
    requires some { at < end }
    requires within { end ≤ length source.now }
    requires formed { IsInteger source.now at end }
    ensures { result ≡ integer_value source.now at end }
{
    let base = base_of(source, at, end);
    let start = digits_start(source, at, end);
    number(source, start, digits_end(source, end), base).unwrap()
}

/// The type of an integer constant with these suffixes.
fn type_of(u: bool, l: bool, value: u32) -> ConstantType
    ensures { result ≡ type_of u l value }
{
    if u || value >= 0x8000_0000 {
        ConstantType::Unsigned
    } else if l {
        ConstantType::Long
    } else {
        ConstantType::Int
    }
}

/// What an integer constant says (C11 6.4.4.1).
pub fn integer(source: &[u8], at: usize, end: usize) -> Constant
    requires some { at < end }
    requires within { end ≤ length source.now }
    requires formed { IsInteger source.now at end }
    ensures { result ≡ integer source.now at end }
{
    let value = integer_value(source, at, end);
    let scalar = type_of(has_u(source, end), has_l(source, end), value);
    Constant { value, scalar }
}

/// The value of the letter behind a backslash.
fn simple_escape(b: u8) -> u8
    requires { simple_escape b < 256 }
    ensures { result ≡ simple_escape b }
{
    match b {
        b'a' => 7,
        b'b' => 8,
        b'f' => 12,
        b'n' => 10,
        b'r' => 13,
        b't' => 9,
        b'v' => 11,
        _ => b,
    }
}

/// The value of a character constant, whose closing quote is the byte `last` (C11 6.4.4.4).
pub fn character(source: &[u8], at: usize, last: usize) -> u8
    requires within { last < length source.now }
    requires formed { IsCharacter source.now at last }
    ensures { result ≡ character source.now at last }
{
    let first = source[at + 1];
    if first != b'\\' {
        return first;
    }
    match source[at + 2] {
        b'x' => number(source, at + 3, last, 16).unwrap() as u8,
        b'0'..=b'7' => number(source, at + 2, last, 8).unwrap() as u8,
        second => simple_escape(second),
    }
}
