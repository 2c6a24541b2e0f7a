// Where runs, comments, numbers and quoted texts end.
ghost use Rattle.std.specs.Prelude.{◌≡◌, ◌≢◌, ◌↔◌, ◌<◌, ◌≤◌, ◌+◌, ℕ, IsTrue, length, slice_index, IfSome, IfNone};
ghost use Rattle.c_tree.specs.Bytes.{Each, IsBlankByte, IsNameByte};
ghost use Rattle.c_lexer.specs.Bytes.{EndsBefore, IsOnLine};
ghost use Rattle.c_lexer.specs.Comments.{EndsComment, IsComment};
ghost use Rattle.c_lexer.specs.Forms.{GoesOn, IsQuoted};

use crate::bytes::{is_blank, is_exponent, is_name_byte, is_sign};

/// Where the bytes of a word end.
pub fn word_end(source: &[u8], from: usize) -> usize
    requires { from ≤ length source.now }
    ensures after { from ≤ result }
    ensures within { result ≤ length source.now }
    ensures word { Each IsNameByte source.now from result }
    ensures whole { EndsBefore IsNameByte source.now result }
{
    for end in from..source.len() {
        if !is_name_byte(source[end]) {
            return end;
        }
    }
    source.len()
}

/// Where a run of blank bytes ends.
pub fn blanks_end(source: &[u8], from: usize) -> usize
    requires { from ≤ length source.now }
    ensures after { from ≤ result }
    ensures within { result ≤ length source.now }
    ensures blanks { Each IsBlankByte source.now from result }
    ensures whole { EndsBefore IsBlankByte source.now result }
{
    for end in from..source.len() {
        if !is_blank(source[end]) {
            return end;
        }
    }
    source.len()
}

/// Where the line ends.
pub fn line_end(source: &[u8], from: usize) -> usize
    requires { from ≤ length source.now }
    ensures after { from ≤ result }
    ensures within { result ≤ length source.now }
    ensures line { Each IsOnLine source.now from result }
    ensures whole { EndsBefore IsOnLine source.now result }
{
    for end in from..source.len() {
        if source[end] == b'\n' {
            return end;
        }
    }
    source.len()
}

/// The first star with a slash behind it.
pub fn comment_last(source: &[u8], from: usize) -> Option<usize>
    ensures found { IfSome result (λ last. (from ≤ last) × (last + 2 ≤ length source.now) × EndsComment source.now last × ((i : ℕ) → from ≤ i → i < last → EndsComment source.now i → ⊥)) }
    ensures none { IfNone result ((i : ℕ) → from ≤ i → i + 2 ≤ length source.now → EndsComment source.now i → ⊥) }
{
    if source.len() < 2 {
        return None;
    }
    for last in from..source.len() - 1 {
        if source[last] == b'*' && source[last + 1] == b'/' {
            return Some(last);
        }
    }
    None
}

/// Where the comment ends that begins there, if one does.
#[tactic(auto, using(crate::proofs::Comments::line_comment))]
pub fn comment_end(source: &[u8], at: usize) -> Option<usize>
    requires { at < length source.now }
    ensures found { IfSome result (λ end. IsComment source.now at end) }
    ensures none { IfNone result ((end : ℕ) → IsComment source.now at end → ⊥) }
{
    if source[at] != b'/' || at + 1 >= source.len() {
        return None;
    }
    match source[at + 1] {
        b'/' => Some(line_end(source, at)),
        b'*' => {
            let last = comment_last(source, at + 2)?;
            Some(last + 2)
        }
        _ => None,
    }
}

fn goes_on(source: &[u8], i: usize) -> bool
    requires after { 0 < i }
    requires within { i < length source.now }
    ensures { IsTrue result ↔ GoesOn source.now i }
{
    let b = source[i];
    is_name_byte(b) || b == b'.' || is_sign(b) && is_exponent(source[i - 1])
}

/// Where a preprocessing number ends that begins before this place.
pub fn number_end(source: &[u8], from: usize) -> usize
    requires after { 0 < from }
    requires within { from ≤ length source.now }
    ensures after { from ≤ result }
    ensures within { result ≤ length source.now }
    ensures goes_on { (i : ℕ) → from ≤ i → i < result → GoesOn source.now i }
    ensures whole { result < length source.now → GoesOn source.now result → ⊥ }
{
    for end in from..source.len() {
        if !goes_on(source, end) {
            return end;
        }
    }
    source.len()
}

/// Where the quoted text ends that begins there, if it's closed on its line.
#[tactic(auto, using(crate::proofs::Quotes::quoted_beyond))]
pub fn quoted_end(source: &[u8], at: usize, quote: u8) -> Option<usize>
    requires within { at < length source.now }
    requires opens { slice_index source.now at ≡ quote }
    requires on_line { quote ≢ 10 }
    ensures found { IfSome result (λ end. (end ≤ length source.now) × IsQuoted quote source.now at end) }
    ensures none { IfNone result ((end : ℕ) → end ≤ length source.now → IsQuoted quote source.now at end → ⊥) }
{
    let mut taken = false;
    for n in 0..source.len() - at - 1 {
        let b = source[at + 1 + n];
        if b == b'\n' {
            return None;
        }
        if b == quote && !taken {
            return Some(at + 1 + n + 1);
        }
        taken = b == b'\\' && !taken;
    }
    None
}
