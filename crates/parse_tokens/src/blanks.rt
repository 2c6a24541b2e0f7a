// Blanks and comments (C11 6.4, 6.4.9).
ghost use Rattle.std.specs.Prelude.{◌≡◌, ◌<◌, ◌≤◌, ℕ, List, drop, length, IfSome, IfNone};
ghost use Rattle.c_tree.specs.Bytes.{is_blank};
ghost use Rattle.c_tree.specs.Pragmas.{behind_blanks, Blanks, Block, Line};

fn is_blank(b: u8) -> bool
    ensures { result ≡ is_blank b }
{
    matches!(b, 9..=13 | 32)
}

/// Where the line ends.
fn line_end(bytes: &[u8], from: usize) -> usize
    requires { from ≤ length bytes.now }
    ensures after { from ≤ result }
    ensures within { result ≤ length bytes.now }
    ensures same { behind_blanks Line (drop from bytes.now) ≡ behind_blanks Blanks (drop result bytes.now) }
{
    for at in from..bytes.len() {
        if bytes[at] == b'\n' {
            return at;
        }
    }
    bytes.len()
}

/// Where the comment ends that goes on there, if it ends with a star and a slash.
fn comment_end(bytes: &[u8], from: usize) -> Option<usize>
    requires { from ≤ length bytes.now }
    ensures after { IfSome result (λ end. (from ≤ end) × (end ≤ length bytes.now)) }
    ensures some { IfSome result (λ end. (comment : List ℕ) → behind_blanks (Block comment) (drop from bytes.now) ≡ behind_blanks Blanks (drop end bytes.now)) }
    ensures none { IfNone result ((comment : List ℕ) → behind_blanks (Block comment) (drop from bytes.now) ≡ comment) }
{
    let mut star = false;
    for at in from..bytes.len() {
        if star && bytes[at] == b'/' {
            return Some(at + 1);
        }
        star = bytes[at] == b'*';
    }
    None
}

/// Where the blank or the comment ends that begins there, if one does.
fn blank_end(bytes: &[u8], at: usize) -> Option<usize>
    ensures after { IfSome result (λ end. (at < end) × (end ≤ length bytes.now)) }
    ensures some { IfSome result (λ end. behind_blanks Blanks (drop at bytes.now) ≡ behind_blanks Blanks (drop end bytes.now)) }
    ensures none { IfNone result (behind_blanks Blanks (drop at bytes.now) ≡ drop at bytes.now) }
{
    if at >= bytes.len() {
        return None;
    }
    if is_blank(bytes[at]) {
        return Some(at + 1);
    }
    if bytes[at] != b'/' || at + 1 >= bytes.len() {
        return None;
    }
    match bytes[at + 1] {
        b'/' => Some(line_end(bytes, at + 2)),
        b'*' => comment_end(bytes, at + 2),
        _ => None,
    }
}

/// What stands behind blanks and comments.
pub fn behind_blanks(bytes: &[u8]) -> &[u8]
    ensures behind { result.now ≡ behind_blanks Blanks bytes.now }
    ensures size { length result.now ≤ length bytes.now }
{
    let mut at = 0;
    while let Some(end) = blank_end(bytes, at) {
        at = end;
    }
    &bytes[at..]
}
