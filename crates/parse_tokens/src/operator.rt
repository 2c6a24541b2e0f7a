// Pragma operators (C11 6.10.9).
ghost use Rattle.std.specs.Prelude.{◌≡◌, ◌↔◌, ◌<◌, ◌≤◌, ◌+◌, ℕ, [], ◌∷◌, length, codes, IfSome, IfNone, IsTrue};
ghost use Rattle.std.specs.List.{IsAmong};
ghost use Rattle.c_tree.specs.Bytes.{Stands};
ghost use Rattle.c_tree.specs.Pragmas.{string_text, IsOperator};

use crate::blanks::behind_blanks;
use crate::texts::{before_quote, from_quote, without};

/// What an operator says, and where it ends.
#[derive(Clone, Copy)]
pub struct Operator<'a> {
    pub text: &'a [u8],
    pub end: usize,
}

fn begins(bytes: &[u8], b: u8) -> bool
    requires { 0 < b }
    ensures begins { IsTrue result ↔ Stands bytes.now 0 (b ∷ []) }
    ensures some { IsTrue result → 0 < length bytes.now }
{
    !bytes.is_empty() && bytes[0] == b
}

/// Whether the text goes on in another line.
fn has_line_end(text: &[u8]) -> bool
    ensures { IsTrue result ↔ IsAmong text.now 10 }
{
    text.contains(&b'\n')
}

/// The operator whose word stands there.
pub fn read_operator(source: &[u8], at: usize) -> Option<Operator<'_>>
    requires within { at + 7 ≤ length source.now }
    requires word { Stands source.now at (codes "_Pragma") }
    ensures some { IfSome result (λ o. IsOperator source.now at o.end) }
    ensures text { IfSome result (λ o. o.text.now ≡ string_text source.now at) }
    ensures ends { IfSome result (λ o. (at + 7 < o.end) × (o.end ≤ length source.now)) }
    ensures none { IfNone result ((end : ℕ) → IsOperator source.now at end → ⊥) }
{
    let open = behind_blanks(without(source, at + 7));
    if !begins(open, b'(') {
        return None;
    }
    let string = behind_blanks(without(open, 1));
    if !begins(string, b'"') {
        return None;
    }
    let behind_quote = without(string, 1);
    let text = before_quote(behind_quote);
    if has_line_end(text) {
        return None;
    }
    let string_end = from_quote(behind_quote, text);
    if !begins(string_end, b'"') {
        return None;
    }
    let close = behind_blanks(without(string_end, 1));
    if !begins(close, b')') {
        return None;
    }
    Some(Operator {
        text,
        end: source.len() + 1 - close.len(),
    })
}
