// The texts of pragmas.
ghost use Rattle.std.specs.Prelude.{◌≡◌, ◌<◌, ◌≤◌, ◌-◌, false, drop, length};
ghost use Rattle.c_tree.specs.Pragmas.{before_quote, from_quote, pragma_text, string_text, without_return};

use crate::blanks::behind_blanks;

/// All but so many bytes.
pub fn without(bytes: &[u8], count: usize) -> &[u8]
    ensures rest { result.now ≡ drop count bytes.now }
    ensures size { length result.now ≡ length bytes.now - count }
{
    if count < bytes.len() {
        &bytes[count..]
    } else {
        &[]
    }
}

/// The text without the carriage return that ends its line.
fn without_return(text: &[u8]) -> &[u8]
    ensures { result.now ≡ without_return text.now }
{
    let size = text.len();
    if size > 0 && text[size - 1] == b'\r' {
        return &text[..size - 1];
    }
    text
}

/// The text of a string up to its closing quote; a backslash takes the next byte with it.
pub fn before_quote(bytes: &[u8]) -> &[u8]
    ensures { result.now ≡ before_quote false bytes.now }
{
    let mut escaped = false;
    for at in 0..bytes.len() {
        let b = bytes[at];
        if !escaped && b == b'"' {
            return &bytes[..at];
        }
        escaped = !escaped && b == b'\\';
    }
    bytes
}

/// From the closing quote on, behind the text of a string.
#[tactic(auto, using(crate::proofs::Quotes::from_quote_drop))]
pub fn from_quote<'a>(bytes: &'a [u8], text: &[u8]) -> &'a [u8]
    requires { text.now ≡ before_quote false bytes.now }
    ensures behind { result.now ≡ from_quote false bytes.now }
    ensures size { length result.now ≤ length bytes.now }
{
    without(bytes, text.len())
}

/// The text of a pragma, whose line goes on with `pragma` behind the `#` and blanks.
pub fn directive_text(line: &[u8]) -> &[u8]
    ensures { result.now ≡ without_return (drop 6 line.now) }
{
    without_return(without(line, 6))
}

/// The text in the string of `_Pragma`.
fn string_text(source: &[u8], at: usize) -> &[u8]
    requires { at < length source.now }
    ensures { result.now ≡ string_text source.now at }
{
    let open = behind_blanks(without(source, at + 7));
    let string = behind_blanks(without(open, 1));
    before_quote(without(string, 1))
}

/// The text of a pragma, in either spelling.
pub fn text(source: &[u8], at: usize, end: usize) -> &[u8]
    requires some { at < end }
    requires within { end ≤ length source.now }
    ensures { result.now ≡ pragma_text source.now at end }
{
    if source[at] == b'#' {
        directive_text(behind_blanks(&source[at + 1..end]))
    } else {
        string_text(source, at)
    }
}
