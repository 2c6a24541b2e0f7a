// The words of a line, as they are written.
ghost use Rattle.std.specs.Prelude.{◌≡◌, ◌<◌, [], ◌∷◌, ◌++◌, map, OnOk};
ghost use Rattle.std.specs.Char.{digit_char};
ghost use Rattle.report_words.specs.Words.{address_word, spaced, line_text};
ghost use Rattle.report_words.specs.Fields.{field_word};

use itoa::Buffer;
use wcc_base::Memory;

/// A word of a line.
#[derive(Clone, Copy)]
pub enum Field<'a> {
    Number(u64),
    Signed(i128),
    /// Eight hexadecimal digits.
    Address(u32),
    /// A term of a sum: its address and its number.
    Term(u32, i64),
    Word(&'a [u8]),
}

// A hexadecimal digit in lower case.
fn hex_digit(n: u32) -> u8
    requires { n < 16 }
    ensures { result ≡ digit_char n }
{
    if n < 10 {
        b'0' + n as u8
    } else {
        b'a' + (n as u8 - 10)
    }
}

// An address as it is written.
#[tactic(auto, unfolding(crate::specs::Words::address_word))]
fn address(at: u32) -> [u8; 8]
    ensures { result ≡ address_word at }
{
    [
        hex_digit(at / 0x1000_0000 % 16),
        hex_digit(at / 0x100_0000 % 16),
        hex_digit(at / 0x10_0000 % 16),
        hex_digit(at / 0x1_0000 % 16),
        hex_digit(at / 0x1000 % 16),
        hex_digit(at / 0x100 % 16),
        hex_digit(at / 0x10 % 16),
        hex_digit(at % 16),
    ]
}

// Adds bytes.
fn put(text: &mut Vec<u8>, bytes: &[u8]) -> Result<(), Memory>
    ensures { OnOk result (text.new.items ≡ text.old.items ++ bytes.now) }
{
    text.extend_from_slice(bytes)?;
    Ok(())
}

// Adds a term of a sum.
fn put_term(text: &mut Vec<u8>, at: u32, number: i64) -> Result<(), Memory>
    ensures { OnOk result (text.new.items ≡ text.old.items ++ field_word (Field.Term at number)) }
{
    put(text, Buffer::new().format(number).as_bytes())?;
    text.push(b'*')?;
    put(text, &address(at))
}

// Adds a word.
fn put_word(text: &mut Vec<u8>, field: &Field) -> Result<(), Memory>
    ensures { OnOk result (text.new.items ≡ text.old.items ++ field_word field.now) }
{
    match field {
        Field::Number(number) => put(text, Buffer::new().format(*number).as_bytes()),
        Field::Signed(number) => put(text, Buffer::new().format(*number).as_bytes()),
        Field::Address(at) => put(text, &address(*at)),
        Field::Term(at, number) => put_term(text, *at, *number),
        Field::Word(word) => put(text, word),
    }
}

// Adds a word behind a blank.
fn put_field(text: &mut Vec<u8>, field: &Field) -> Result<(), Memory>
    ensures { OnOk result (text.new.items ≡ text.old.items ++ 32 ∷ field_word field.now) }
{
    text.push(b' ')?;
    put_word(text, field)
}

/// Adds words, each behind a blank.
pub fn put_fields(text: &mut Vec<u8>, fields: &[Field]) -> Result<(), Memory>
    ensures { OnOk result (text.new.items ≡ text.old.items ++ spaced (map field_word fields.now)) }
{
    for field in fields {
        put_field(text, field)?;
    }
    Ok(())
}

/// Adds the first word of a line, and such words behind it.
pub fn put_start(text: &mut Vec<u8>, first: &[u8], fields: &[Field]) -> Result<(), Memory>
    ensures { OnOk result (text.new.items ≡ text.old.items ++ first.now ++ spaced (map field_word fields.now)) }
{
    put(text, first)?;
    put_fields(text, fields)
}

/// Adds a line of a first word and such words behind it.
pub fn put_line(text: &mut Vec<u8>, first: &[u8], fields: &[Field]) -> Result<(), Memory>
    ensures { OnOk result (text.new.items ≡ text.old.items ++ line_text (first.now ∷ map field_word fields.now)) }
{
    put_start(text, first, fields)?;
    end_line(text)
}

/// Adds the end of a line.
pub fn end_line(text: &mut Vec<u8>) -> Result<(), Memory>
    ensures { OnOk result (text.new.items ≡ text.old.items ++ 10 ∷ []) }
{
    text.push(b'\n')?;
    Ok(())
}
