// Fixed texts at a place.
ghost use Rattle.std.specs.Prelude.{◌≡◌, ◌↔◌, ◌<◌, ◌≤◌, IsTrue, length, map, slice_index};
ghost use Rattle.c_tree.specs.Bytes.{Each, Spans, Stands};
ghost use Rattle.c_lexer.specs.Bytes.{are_set, IsOnLine};
ghost use Rattle.c_lexer.specs.Forms.{first_size};
ghost use Rattle.c_lexer.specs.Kinds.{find_kind, is_one};

use c_tree::token::TokenKind;

/// The size of the first text with which the bytes begin.
pub fn first_size(bytes: &[u8], texts: &[&[u8]]) -> Option<usize>
    ensures { result ≡ first_size bytes.now (map (λ text. text.now) texts.now) }
{
    for text in texts {
        if bytes.starts_with(text) {
            return Some(text.len());
        }
    }
    None
}

/// The kind that the bytes spell.
pub fn find_kind(bytes: &[u8], spellings: &[(&[u8], TokenKind)]) -> Option<TokenKind>
    ensures { result ≡ find_kind bytes.now (map (λ row. (row.0.now, row.1)) spellings.now) }
{
    for (text, kind) in spellings {
        if bytes == *text {
            return Some(*kind);
        }
    }
    None
}

/// Whether the bytes are one of the texts.
pub fn is_one(bytes: &[u8], texts: &[&[u8]]) -> bool
    ensures { result ≡ is_one bytes.now (map (λ text. text.now) texts.now) }
{
    for text in texts {
        if bytes == *text {
            return true;
        }
    }
    false
}

/// Whether the text is what stands between two places.
pub fn is_span(source: &[u8], at: usize, end: usize, text: &[u8]) -> bool
    requires ordered { at ≤ end }
    requires within { end ≤ length source.now }
    ensures { IsTrue result ↔ Spans source.now at end text.now }
{
    &source[at..end] == text
}

/// Whether this byte stands there.
pub fn has(source: &[u8], at: usize, b: u8) -> bool
    requires { 0 < b }
    ensures here { IsTrue result ↔ (slice_index source.now at ≡ b) }
    ensures within { IsTrue result → at < length source.now }
{
    at < source.len() && source[at] == b
}

/// Whether the text, which has no zero bytes, stands there.
pub fn stands(source: &[u8], at: usize, text: &[u8]) -> bool
    requires within { at ≤ length source.now }
    requires set { IsTrue (are_set text.now) }
    ensures { IsTrue result ↔ Stands source.now at text.now }
{
    source[at..].starts_with(text)
}

/// Whether no line feed stands between the two places.
pub fn is_on_line(source: &[u8], at: usize, end: usize) -> bool
    requires { end ≤ length source.now }
    ensures { IsTrue result ↔ Each IsOnLine source.now at end }
{
    for i in at..end {
        if source[i] == b'\n' {
            return false;
        }
    }
    true
}
