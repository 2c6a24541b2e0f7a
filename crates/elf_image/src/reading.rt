// The image that the bytes of a file load to (ELF32).
ghost use Rattle.std.specs.Prelude.{◌≡◌, ◌⊎◌, ◌↔◌, ◌<◌, ℕ, length, take, drop, IsTrue, IsOk, IsErrOf, IfOk, MatchOption, MatchResult};
ghost use Rattle.elf_image.specs.Headers.{header_of, has};
ghost use Rattle.elf_image.specs.Loading.{IsTable, IsElf, IsExecutable, IsWithin, Passes, IsFirstBad, IsLoadable, segment_of, image_of};
ghost use Rattle.elf_image.specs.Progress.{HasLoaded, StopsAt};

use crate::fault::ElfFault;
use crate::headers::{Header, ProgramHeader, read_header, read_program_header};
use crate::segments::{is_apart, is_segment};
use crate::sorting::insert;
use crate::writing::{HEADER_SIZE, PROGRAM_HEADER_SIZE};
use rv_core::{Image, Segment};
use std::alloc::Global;
use wcc_base::{Items, Memory};

// The first bytes of a 32-bit little-endian file of version 1.
const MAGIC: [u8; 7] = [0x7f, 0x45, 0x4c, 0x46, 1, 1, 1];

// The type of an executable.
const EXECUTABLE: u16 = 2;

const RISC_V: u16 = 243;

// The type of a program header whose segment is loaded.
const LOAD: u32 = 1;

// The rights of a segment, in its flags.
const EXEC: u32 = 1;

const WRITE: u32 = 2;

const READ: u32 = 4;

const MOST_SEGMENTS: usize = 16;

/// The image that the bytes of a file load to. Section headers, program headers of other types,
/// physical addresses, alignments and further flags are passed over.
pub fn read(alloc: Global, bytes: &[u8]) -> Result<Image, ElfFault>
    ensures ok { IsErrOf result ElfFault.Memory ⊎ (IsOk result ↔ IsLoadable bytes.now) }
    ensures image { IfOk result (λ image. image ≡ image_of bytes.now) }
    ensures not_elf { IsErrOf result ElfFault.Memory ⊎ (IsErrOf result ElfFault.NotElf ↔ ¬ IsElf bytes.now) }
    ensures wrong_machine { IsErrOf result ElfFault.Memory ⊎ (IsErrOf result ElfFault.WrongMachine
        ↔ IsElf bytes.now × ¬ IsExecutable (header_of bytes.now)) }
    ensures bad_segment { (index : ℕ) → IsErrOf result ElfFault.Memory ⊎ (IsErrOf result (ElfFault.BadSegment index)
        ↔ IsElf bytes.now × IsExecutable (header_of bytes.now) × IsFirstBad bytes.now index) }
{
    if !is_elf(bytes) {
        return Err(ElfFault::NotElf);
    }
    let header = read_header(bytes);
    if !is_executable(&header) {
        return Err(ElfFault::WrongMachine);
    }
    let segments = read_segments(alloc, bytes, &header)?;
    Ok(Image::new(header.entry, segments))
}

// Whether the program headers, if there are any, end within so many bytes.
fn has_table(header: &Header, size: usize) -> bool
    ensures { IsTrue result ↔ (0 < header.now.count → IsTable size header.now) }
{
    if header.count == 0 {
        return true;
    }
    let table_size = PROGRAM_HEADER_SIZE * u32::from(header.count);
    u32::from(header.entry_size) == PROGRAM_HEADER_SIZE
        && header.table as usize + table_size as usize <= size
}

// Whether the file has a 32-bit little-endian ELF header and its program headers.
fn is_elf(bytes: &[u8]) -> bool
    ensures { IsTrue result ↔ IsElf bytes.now }
{
    bytes.len() >= HEADER_SIZE as usize
        && bytes.starts_with(&MAGIC)
        && has_table(&read_header(bytes), bytes.len())
}

// Whether the file is an executable for RISC-V.
fn is_executable(header: &Header) -> bool
    ensures { IsTrue result ↔ IsExecutable header.now }
{
    header.kind == EXECUTABLE && header.machine == RISC_V
}

// The segments of the program headers, in ascending order.
fn read_segments(alloc: Global, bytes: &[u8], header: &Header) -> Result<Vec<Segment>, ElfFault>
    requires elf { IsElf bytes.now }
    requires header { header.now ≡ header_of bytes.now }
    ensures { MatchResult result (λ segments. HasLoaded bytes.now header.now.count segments.items) (StopsAt bytes.now) }
{
    let mut segments = Vec::new(alloc);
    for index in 0..u32::from(header.count) {
        let at = header.table as usize + (PROGRAM_HEADER_SIZE * index) as usize;
        let program_header = read_program_header(bytes, at);
        if program_header.kind != LOAD {
            continue;
        }
        let Some(segment) = read_segment(alloc, bytes, &program_header, &segments)? else {
            return Err(ElfFault::BadSegment { index });
        };
        insert(&mut segments, segment)?;
    }
    Ok(segments)
}

// The segment of a program header, if it passes behind those before it.
fn read_segment(
    alloc: Global,
    bytes: &[u8],
    header: &ProgramHeader,
    before: &[Segment],
) -> Result<Option<Segment>, Memory>
    ensures { IfOk result (λ o. MatchOption o (Passes bytes.now before.now header.now → ⊥)
        (λ s. (s ≡ segment_of bytes.now header.now) × Passes bytes.now before.now header.now)) }
{
    let Some(contents) = read_contents(bytes, header) else {
        return Ok(None);
    };
    let segment = Segment {
        at: header.address,
        bytes: Items::new(contents.to_vec(alloc)?),
        size: header.memory_size,
        read: has_flag(header, READ),
        write: has_flag(header, WRITE),
        exec: has_flag(header, EXEC),
    };
    if before.len() < MOST_SEGMENTS && is_segment(&segment) && is_apart(&segment, before) {
        Ok(Some(segment))
    } else {
        Ok(None)
    }
}

// Whether one of the bits of the mask stands in the flags.
fn has_flag(header: &ProgramHeader, mask: u32) -> bool
    ensures { result ≡ has header.now.flags mask }
{
    header.flags & mask != 0
}

// The bytes of a segment in the file, if they end within it.
fn read_contents<'a>(bytes: &'a [u8], header: &ProgramHeader) -> Option<&'a [u8]>
    ensures { MatchOption result (IsWithin (length bytes.now) header.now → ⊥)
        (λ contents. IsWithin (length bytes.now) header.now × (contents.now ≡ take header.now.file_size (drop header.now.offset bytes.now))) }
{
    if header.file_size == 0 {
        return Some(&[]);
    }
    let from = header.offset as usize;
    bytes.get(from..from + header.file_size as usize)
}
