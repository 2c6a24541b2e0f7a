// Whether a text is a constant that has a value and a type (C11 6.4.4).
ghost use Rattle.std.specs.Prelude.{◌≡◌, ◌↔◌, ◌<◌, ◌≤◌, ◌+◌, ◌-◌, IsTrue, length, slice_index};
ghost use Rattle.c_tree.specs.Bytes.{Each};
ghost use Rattle.c_tree.specs.Constants.{digit, most, number, simple_escape, IsCharacter, IsHexadecimal, IsInteger, IsOctal, IsPlain, IsSimple};

use crate::digits::{base_of, digit, digits_end, digits_start, has_u, number};

/// Whether only digits of the base stand between two places.
fn are_digits(source: &[u8], at: usize, end: usize, base: u8) -> bool
    requires { end ≤ length source.now }
    ensures { IsTrue result ↔ Each (λ b. digit b < base) source.now at end }
{
    for i in at..end {
        if digit(source[i]) >= base {
            return false;
        }
    }
    true
}

/// The greatest value of an integer constant that has a type here.
fn most(u: bool, base: u8) -> u32
    ensures { result ≡ most u base }
{
    if u || base <= 8 || base >= 16 {
        4_294_967_295
    } else {
        2_147_483_647
    }
}

/// Whether the number between two places is at most that.
fn is_at_most(source: &[u8], at: usize, end: usize, base: u8, most: u32) -> bool
    requires ordered { at ≤ end }
    requires within { end ≤ length source.now }
    requires based { 0 < base }
    ensures { IsTrue result ↔ (number base source.now at (end - at) ≤ most) }
{
    match number(source, at, end, base) {
        Some(value) => value <= most,
        None => false,
    }
}

/// Whether a text is an integer constant that has a type here (C11 6.4.4.1).
///
/// A decimal constant without u is at most 2147483647, any other at most 4294967295.
pub fn is_integer(source: &[u8], at: usize, end: usize) -> bool
    requires some { at < end }
    requires within { end ≤ length source.now }
    ensures { IsTrue result ↔ IsInteger source.now at end }
{
    let base = base_of(source, at, end);
    let start = digits_start(source, at, end);
    let stop = digits_end(source, end);
    let most = most(has_u(source, end), base);
    source[at].is_ascii_digit()
        && start < stop
        && are_digits(source, start, stop, base)
        && is_at_most(source, start, stop, base, most)
}

fn is_simple_escape(b: u8) -> bool
    ensures { IsTrue result ↔ (simple_escape b < 256) }
{
    matches!(
        b,
        b'\'' | b'"' | b'?' | b'\\' | b'a' | b'b' | b'f' | b'n' | b'r' | b't' | b'v'
    )
}

fn is_plain(source: &[u8], at: usize, last: usize) -> bool
    requires { at + 1 < length source.now }
    ensures { IsTrue result ↔ IsPlain source.now at last }
{
    let b = source[at + 1];
    last == at + 2 && matches!(b, b' '..=b'~') && b != b'\'' && b != b'\\'
}

fn is_simple(source: &[u8], at: usize, last: usize) -> bool
    requires { at + 2 < length source.now }
    ensures { IsTrue result ↔ IsSimple source.now at last }
{
    source[at + 1] == b'\\' && last == at + 3 && is_simple_escape(source[at + 2])
}

fn is_octal(source: &[u8], at: usize, last: usize) -> bool
    requires after { at + 1 < last }
    requires within { last < length source.now }
    ensures { IsTrue result ↔ IsOctal source.now at last }
{
    source[at + 1] == b'\\'
        && at + 3 <= last
        && last <= at + 5
        && are_digits(source, at + 2, last, 8)
}

fn is_hexadecimal_escape(source: &[u8], at: usize, last: usize) -> bool
    requires after { at + 1 < last }
    requires within { last < length source.now }
    ensures { IsTrue result ↔ IsHexadecimal source.now at last }
{
    source[at + 1] == b'\\'
        && source[at + 2] == b'x'
        && at + 4 <= last
        && are_digits(source, at + 3, last, 16)
}

/// Whether one byte or one escape of a value below 256 stands between two quotes (C11 6.4.4.4).
pub fn is_character(source: &[u8], at: usize, last: usize) -> bool
    requires after { at + 1 < last }
    requires within { last < length source.now }
    requires opens { slice_index source.now at ≡ 39 }
    requires closes { slice_index source.now last ≡ 39 }
    ensures { IsTrue result ↔ IsCharacter source.now at last }
{
    if source[at + 1] != b'\\' {
        return is_plain(source, at, last);
    }
    match source[at + 2] {
        b'x' => is_hexadecimal_escape(source, at, last)
            && is_at_most(source, at + 3, last, 16, 255),
        b'0'..=b'7' => is_octal(source, at, last) && is_at_most(source, at + 2, last, 8, 255),
        _ => is_simple(source, at, last),
    }
}
