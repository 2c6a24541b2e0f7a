// The words of a pragma's text.
ghost use Rattle.std.specs.Prelude.{◌≡◌, ◌<◌, ◌≤◌, false, drop, length, slice_index};
ghost use Rattle.c_tree.specs.Pragmas.{before_gap, behind_first_word, first_word, is_gap};

fn is_gap(b: u8) -> bool
    ensures { result ≡ is_gap b }
{
    b == b' ' || b == b'\t'
}

/// Where the first word of a text begins, or where the text ends.
fn first_word_start(text: &[u8]) -> usize
    ensures within { result ≤ length text.now }
    ensures same { first_word text.now ≡ first_word (drop result text.now) }
    ensures stop { result < length text.now → is_gap (slice_index text.now result) ≡ false }
{
    for (i, b) in text.iter().enumerate() {
        if !is_gap(*b) {
            return i;
        }
    }
    text.len()
}

/// The bytes before the next space or tab.
fn before_gap(text: &[u8]) -> &[u8]
    ensures { result.now ≡ before_gap text.now }
{
    for i in 0..text.len() {
        if is_gap(text[i]) {
            return &text[..i];
        }
    }
    text
}

/// The first word of a text.
pub fn first_word(text: &[u8]) -> &[u8]
    ensures { result.now ≡ first_word text.now }
{
    let start = first_word_start(text);
    before_gap(&text[start..])
}

/// What stands behind the first word of a text.
pub fn behind_first_word(text: &[u8]) -> &[u8]
    ensures { result.now ≡ behind_first_word false text.now }
{
    let mut begun = false;
    for at in 0..text.len() {
        let gap = is_gap(text[at]);
        if begun && gap {
            return &text[at..];
        }
        begun = begun || !gap;
    }
    &text[text.len()..]
}
