// The digits of a constant, and what stands around those of an integer (C11 6.4.4.1).
ghost use Rattle.std.specs.Prelude.{◌≡◌, ◌<◌, ◌≤◌, ◌-◌, IfSome, IfNone, length};
ghost use Rattle.c_tree.specs.Constants.{base_of, digit, digits_end, digits_start, has_l, has_u, is_hexadecimal, is_l, is_u, number};

/// The value of a digit; of any other byte 16, which no base has.
pub fn digit(b: u8) -> u8
    ensures { result ≡ digit b }
{
    match b {
        b'0'..=b'9' => b - b'0',
        b'a'..=b'f' => b - b'a' + 10,
        b'A'..=b'F' => b - b'A' + 10,
        _ => 16,
    }
}

/// The number that the digits between two places spell, if it's at most 4294967295.
#[tactic(auto, using(crate::proofs::Numbers::number_passes))]
pub fn number(source: &[u8], at: usize, end: usize, base: u8) -> Option<u32>
    requires ordered { at ≤ end }
    requires within { end ≤ length source.now }
    requires based { 0 < base }
    ensures some { IfSome result (λ value. value ≡ number base source.now at (end - at)) }
    ensures none { IfNone result (4294967295 < number base source.now at (end - at)) }
{
    let mut value: u64 = 0;
    for count in 0..end - at {
        value = value * u64::from(base) + u64::from(digit(source[at + count]));
        if value > 4_294_967_295 {
            return None;
        }
    }
    Some(value as u32)
}

fn is_u(b: u8) -> bool
    ensures { result ≡ is_u b }
{
    b == b'u' || b == b'U'
}

fn is_l(b: u8) -> bool
    ensures { result ≡ is_l b }
{
    b == b'l' || b == b'L'
}

/// Whether the suffix has a u.
pub fn has_u(source: &[u8], end: usize) -> bool
    requires some { 0 < end }
    requires within { end ≤ length source.now }
    ensures { result ≡ has_u source.now end }
{
    let last = source[end - 1];
    is_u(last) || is_l(last) && is_u(source[end.saturating_sub(2)])
}

/// Whether the suffix has an l.
pub fn has_l(source: &[u8], end: usize) -> bool
    requires some { 0 < end }
    requires within { end ≤ length source.now }
    ensures { result ≡ has_l source.now end }
{
    let last = source[end - 1];
    is_l(last) || is_u(last) && is_l(source[end.saturating_sub(2)])
}

/// Where the suffix of an integer constant begins.
pub fn digits_end(source: &[u8], end: usize) -> usize
    requires some { 0 < end }
    requires within { end ≤ length source.now }
    ensures { result ≡ digits_end source.now end }
{
    let u = usize::from(has_u(source, end));
    let l = usize::from(has_l(source, end));
    end.saturating_sub(u + l)
}

fn is_hexadecimal(source: &[u8], at: usize, end: usize) -> bool
    requires some { at < end }
    requires within { end ≤ length source.now }
    ensures { result ≡ is_hexadecimal source.now at end }
{
    at + 2 <= end && source[at] == b'0' && matches!(source[at + 1], b'x' | b'X')
}

/// The base of the digits.
pub fn base_of(source: &[u8], at: usize, end: usize) -> u8
    requires some { at < end }
    requires within { end ≤ length source.now }
    ensures { result ≡ base_of source.now at end }
{
    if is_hexadecimal(source, at, end) {
        16
    } else if source[at] == b'0' {
        8
    } else {
        10
    }
}

/// Where the digits of an integer constant begin.
pub fn digits_start(source: &[u8], at: usize, end: usize) -> usize
    requires some { at < end }
    requires within { end ≤ length source.now }
    ensures { result ≡ digits_start source.now at end }
{
    if is_hexadecimal(source, at, end) {
        at + 2
    } else {
        at
    }
}
