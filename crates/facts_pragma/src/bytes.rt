// Bytes of names, and whole words.
ghost use Rattle.std.specs.Prelude.{◌≡◌};
ghost use Rattle.facts_definitions.specs.PragmaTexts.{all_name_bytes, is_digit, is_name, same_bytes};
ghost use Rattle.c_tree.specs.Bytes.{is_letter, is_name_byte};
ghost use Rattle.c_tree.specs.Pragmas.{is_gap};

pub fn is_gap(b: u8) -> bool
    ensures { result ≡ is_gap b }
{
    b == b' ' || b == b'\t'
}

fn is_letter(b: u8) -> bool
    ensures { result ≡ is_letter b }
{
    matches!(b, b'A'..=b'Z' | b'a'..=b'z' | b'_')
}

pub fn is_digit(b: u8) -> bool
    ensures { result ≡ is_digit b }
{
    b.is_ascii_digit()
}

pub fn is_name_byte(b: u8) -> bool
    ensures { result ≡ is_name_byte b }
{
    is_letter(b) || b.is_ascii_digit()
}

pub fn same_bytes(a: &[u8], b: &[u8]) -> bool
    ensures { result ≡ same_bytes a.now b.now }
{
    a == b
}

fn all_name_bytes(bytes: &[u8]) -> bool
    ensures { result ≡ all_name_bytes bytes.now }
{
    for i in 0..bytes.len() {
        if !is_name_byte(bytes[i]) {
            return false;
        }
    }
    true
}

/// Whether these bytes have the form of a name.
pub fn is_name(bytes: &[u8]) -> bool
    ensures { result ≡ is_name bytes.now }
{
    if bytes.is_empty() {
        return false;
    }
    if !is_letter(bytes[0]) {
        return false;
    }
    all_name_bytes(&bytes[1..])
}
