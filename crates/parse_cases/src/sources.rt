// The source of a line.
use std::alloc::{AllocError, Global};

/// Adds a text with its escapes: `$HH` is a byte.
fn push_text(source: &mut Vec<u8>, text: &str) -> Result<(), AllocError> {
    let mut digits: u8 = 0;
    let mut byte: u8 = 0;
    for &b in text.as_bytes() {
        if digits > 0 {
            byte = byte.wrapping_mul(16).wrapping_add(hexadecimal(b));
            digits -= 1;
            if digits == 0 {
                source.push(byte)?;
            }
        } else if b == b'$' {
            digits = 2;
        } else {
            source.push(b)?;
        }
    }
    Ok(())
}

/// The value of a digit, in lower case.
fn hexadecimal(digit: u8) -> u8 {
    if digit.is_ascii_digit() {
        digit - b'0'
    } else {
        digit.saturating_sub(b'a' - 10) % 16
    }
}

/// Adds a text as often as the number before it says.
fn push_repeated(source: &mut Vec<u8>, part: &str) -> Result<(), AllocError> {
    if let Some((times, text)) = part.split_once(' ') {
        for _ in 0..times.parse::<u32>().unwrap_or(0) {
            push_text(source, text)?;
        }
    }
    Ok(())
}

/// The source that a text stands for.
pub fn source_of(alloc: Global, text: &str) -> Result<Vec<u8>, AllocError> {
    let mut source = Vec::new(alloc);
    for (i, part) in text.split('|').enumerate() {
        if i % 2 == 1 {
            push_repeated(&mut source, part)?;
        } else {
            push_text(&mut source, part)?;
        }
    }
    Ok(source)
}
