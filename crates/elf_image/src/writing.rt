// The canonical text of an image (ELF32: ELF header and program headers).
ghost use Rattle.std.specs.Prelude.{◌≡◌, ◌+◌, ◌^◌, ◌<◌, ◌++◌, length, IfOk, OnOk};
ghost use Rattle.rv_core.specs.Bytes.{le_words, le_halves};
ghost use Rattle.elf_image.specs.Text.{header, flags_of, program_header, program_headers, contents, text_of};

use rv_core::{Image, Segment};
use std::alloc::Global;
use wcc_base::Memory;

pub(crate) const HEADER_SIZE: u32 = 52;

pub(crate) const PROGRAM_HEADER_SIZE: u32 = 32;

/// The canonical text of an image.
pub fn write(alloc: Global, image: &Image) -> Result<Vec<u8>, Memory>
    ensures { IfOk result (λ text. text.items ≡ text_of image.now) }
{
    let mut text = Vec::new(alloc);
    let segments = image.segments();
    let count = segments.len() as u16;
    put_header(&mut text, image.entry(), count)?;
    let start = HEADER_SIZE + PROGRAM_HEADER_SIZE * u32::from(count);
    put_program_headers(&mut text, start, segments)?;
    put_contents(&mut text, segments)?;
    Ok(text)
}

// Adds numbers of 16 bits.
fn put_halves(text: &mut Vec<u8>, halves: &[u16]) -> Result<(), Memory>
    ensures { OnOk result (text.new.items ≡ text.old.items ++ le_halves halves.now) }
{
    for half in halves {
        text.extend_from_slice(&half.to_le_bytes())?;
    }
    Ok(())
}

// Adds numbers of 32 bits.
fn put_words(text: &mut Vec<u8>, words: &[u32]) -> Result<(), Memory>
    ensures { OnOk result (text.new.items ≡ text.old.items ++ le_words words.now) }
{
    for word in words {
        text.extend_from_slice(&word.to_le_bytes())?;
    }
    Ok(())
}

// Adds the ELF header.
fn put_header(text: &mut Vec<u8>, entry: u32, count: u16) -> Result<(), Memory>
    ensures { OnOk result (text.new.items ≡ text.old.items ++ header entry count) }
{
    text.extend_from_slice(&[0x7f, 0x45, 0x4c, 0x46, 1, 1, 1, 0, 0, 0, 0, 0, 0, 0, 0, 0])?;
    put_halves(text, &[2, 243])?;
    put_words(text, &[1, entry, 52, 0, 0])?;
    put_halves(text, &[52, 32, count, 0, 0, 0])
}

// The rights of a segment: X is 1, W is 2 and R is 4.
fn flags(segment: &Segment) -> u32
    ensures { result ≡ flags_of segment.now.read segment.now.write segment.now.exec }
{
    u32::from(segment.exec) + 2 * u32::from(segment.write) + 4 * u32::from(segment.read)
}

// Adds the program header of a segment whose bytes stand at that place of the file.
fn put_program_header(text: &mut Vec<u8>, at: u32, segment: &Segment) -> Result<(), Memory>
    requires { length segment.now.bytes < 2 ^ 32 }
    ensures { OnOk result (text.new.items ≡ text.old.items ++ program_header at segment.now) }
{
    let size = segment.bytes.as_slice().len() as u32;
    let flags = flags(segment);
    put_words(
        text,
        &[1, at, segment.at, segment.at, size, segment.size, flags, 1],
    )
}

// Adds the program headers of segments whose bytes stand from that place on.
fn put_program_headers(text: &mut Vec<u8>, start: u32, segments: &[Segment]) -> Result<(), Memory>
    requires { start + length (contents segments.now) < 2 ^ 32 }
    ensures { OnOk result (text.new.items ≡ text.old.items ++ program_headers start segments.now) }
{
    let mut at = start;
    for segment in segments {
        put_program_header(text, at, segment)?;
        at += segment.bytes.as_slice().len() as u32;
    }
    Ok(())
}

// Adds the bytes of the segments.
fn put_contents(text: &mut Vec<u8>, segments: &[Segment]) -> Result<(), Memory>
    ensures { OnOk result (text.new.items ≡ text.old.items ++ contents segments.now) }
{
    for segment in segments {
        text.extend_from_slice(segment.bytes.as_slice())?;
    }
    Ok(())
}
