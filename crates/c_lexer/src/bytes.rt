// Classes of bytes.
ghost use Rattle.std.specs.Prelude.{◌↔◌, IsTrue};
ghost use Rattle.c_tree.specs.Bytes.{IsBlankByte, IsDigit, IsLetter, IsNameByte};
ghost use Rattle.c_lexer.specs.Bytes.{IsExponent, IsSign};

pub fn is_digit(b: u8) -> bool
    ensures { IsTrue result ↔ IsDigit b }
{
    b.is_ascii_digit()
}

pub fn is_letter(b: u8) -> bool
    ensures { IsTrue result ↔ IsLetter b }
{
    matches!(b, b'A'..=b'Z' | b'a'..=b'z' | b'_')
}

pub fn is_name_byte(b: u8) -> bool
    ensures { IsTrue result ↔ IsNameByte b }
{
    is_letter(b) || is_digit(b)
}

pub fn is_blank(b: u8) -> bool
    ensures { IsTrue result ↔ IsBlankByte b }
{
    matches!(b, 9..=13 | 32)
}

pub fn is_sign(b: u8) -> bool
    ensures { IsTrue result ↔ IsSign b }
{
    matches!(b, b'+' | b'-')
}

pub fn is_exponent(b: u8) -> bool
    ensures { IsTrue result ↔ IsExponent b }
{
    matches!(b, b'e' | b'E' | b'p' | b'P')
}
