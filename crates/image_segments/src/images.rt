// Images of code and data.
ghost use Rattle.std.specs.Prelude.{◌≡◌, ◌≤◌, ◌<◌, ◌^◌, ◌∷◌, ◌++◌, [], true, length, slice_index, IfOk, OnOk};
ghost use Rattle.image_segments.specs.Rows.{row_number, row_room, HaveSizes};
ghost use Rattle.image_segments.specs.Starts.{starts_behind, second_of, placed_end, FitRegions};
ghost use Rattle.image_segments.specs.Segments.{present, code_segment, data_segment, spots_in, row_segment, values_in, low_segments, ram_segments, segments_of, FitSegments};
ghost use Rattle.image_segments.specs.Views.{data_of};

use super::beginnings::starts;
use crate::contents::row_bytes;
use crate::rows::{Row, row_room};
use low_ir::object::Object;
use rv_core::{Image, Segment};
use std::alloc::Global;
use wcc_base::{Items, Memory};

/// Where the frames of functions end, and the arrays of a program.
#[derive(Clone, Copy)]
pub struct Data<'a> {
    pub frames_end: u32,
    /// By array, whether it is placed in the scratchpad; one that the list doesn't reach isn't.
    pub placed: &'a [bool],
    pub objects: &'a [Object],
}

/// The bytes of the code in both regions.
#[derive(Drop)]
pub struct Code {
    pub flash: Vec<u8>,
    pub scratchpad: Vec<u8>,
}

/// Where a row begins.
fn start(memory: Data<'_>, row: Row) -> u32
    requires sizes { HaveSizes (data_of memory).objects }
    requires fit { FitRegions memory.frames_end (spots_in (data_of memory)) }
    ensures { result ≡ slice_index (starts_behind memory.entry.frames_end (spots_in (data_of memory.entry))) (row_number row) }
{
    starts(memory.frames_end, memory.placed, memory.objects)[row.number()]
}

/// What the arrays of a row take.
fn room(memory: Data<'_>, row: Row) -> u32
    requires sizes { HaveSizes (data_of memory).objects }
    requires fit { FitRegions memory.frames_end (spots_in (data_of memory)) }
    ensures { result ≡ row_room (row_number row) (spots_in (data_of memory.entry)) }
{
    row_room(row, memory.placed, memory.objects)
}

/// Where code begins in the scratchpad.
pub fn placed_end(memory: Data<'_>) -> u32
    requires sizes { HaveSizes (data_of memory).objects }
    requires fit { FitRegions memory.frames_end (spots_in (data_of memory)) }
    ensures { result ≡ placed_end (spots_in (data_of memory.entry)) }
{
    0x1000_0000 + room(memory, Row::Scratchpad)
}

/// What the second base holds: the middle of the first 4096 bytes of what is placed, else of the constants; 0 where there
/// is neither.
pub fn second_base(memory: Data<'_>) -> u32
    requires sizes { HaveSizes (data_of memory).objects }
    requires fit { FitRegions memory.frames_end (spots_in (data_of memory)) }
    ensures { result ≡ second_of (spots_in (data_of memory.entry)) }
{
    if room(memory, Row::Scratchpad) > 0 {
        return 0x1000_0800;
    }
    if room(memory, Row::Constants) > 0 {
        return 0x7c_0800;
    }
    0
}

fn put(segments: &mut Vec<Segment>, segment: Segment) -> Result<(), Memory>
    ensures { OnOk result (segments.new.items ≡ segments.old.items ++ present (segment ∷ [])) }
{
    if segment.size > 0 {
        segments.push(segment)?;
    } else {
        drop(segment);
    }
    Ok(())
}

fn put_code(segments: &mut Vec<Segment>, at: u32, bytes: Vec<u8>) -> Result<(), Memory>
    requires { length bytes.items < 2 ^ 32 }
    ensures { OnOk result (segments.new.items ≡ segments.old.items ++ present (code_segment at bytes.items ∷ [])) }
{
    let size = bytes.len() as u32;
    put(
        segments,
        Segment {
            at,
            bytes: Items::new(bytes),
            size,
            read: true,
            write: false,
            exec: true,
        },
    )
}

fn put_data(
    segments: &mut Vec<Segment>,
    at: u32,
    bytes: Vec<u8>,
    size: u32,
    write: bool,
) -> Result<(), Memory>
    ensures { OnOk result (segments.new.items ≡ segments.old.items ++ present (data_segment at bytes.items size write ∷ [])) }
{
    put(
        segments,
        Segment {
            at,
            bytes: Items::new(bytes),
            size,
            read: true,
            write,
            exec: false,
        },
    )
}

/// Appends the segment of a row whose arrays have values.
fn put_values(
    alloc: Global,
    segments: &mut Vec<Segment>,
    memory: Data<'_>,
    row: Row,
    write: bool,
) -> Result<(), Memory>
    requires sizes { HaveSizes (data_of memory).objects }
    requires fit { FitRegions memory.frames_end (spots_in (data_of memory)) }
    ensures { OnOk result (segments.new.items ≡ segments.old.items ++ present (row_segment (data_of memory.entry) (row_number row) (values_in (data_of memory.entry) (row_number row)) write ∷ [])) }
{
    let bytes = row_bytes(alloc, row, memory.placed, memory.objects)?;
    let at = start(memory, row);
    put_data(segments, at, bytes, room(memory, row), write)
}

/// Appends the segment of a row whose arrays have no values.
fn put_zeros(
    alloc: Global,
    segments: &mut Vec<Segment>,
    memory: Data<'_>,
    row: Row,
) -> Result<(), Memory>
    requires sizes { HaveSizes (data_of memory).objects }
    requires fit { FitRegions memory.frames_end (spots_in (data_of memory)) }
    ensures { OnOk result (segments.new.items ≡ segments.old.items ++ present (row_segment (data_of memory.entry) (row_number row) [] true ∷ [])) }
{
    let at = start(memory, row);
    put_data(segments, at, Vec::new(alloc), room(memory, row), true)
}

/// Appends what lies in flash and in the scratchpad.
fn put_low(
    alloc: Global,
    segments: &mut Vec<Segment>,
    memory: Data<'_>,
    code: Code,
) -> Result<(), Memory>
    requires sizes { HaveSizes (data_of memory).objects }
    requires fit { FitSegments (data_of memory) code.flash.items code.scratchpad.items }
    ensures { OnOk result (segments.new.items ≡ segments.old.items ++ present (low_segments (data_of memory.entry) code.flash.items code.scratchpad.items)) }
{
    put_code(segments, 0, code.flash)?;
    put_values(alloc, segments, memory, Row::Constants, false)?;
    put_values(alloc, segments, memory, Row::Scratchpad, true)?;
    put_code(segments, placed_end(memory), code.scratchpad)
}

/// Appends what lies in RAM.
fn put_ram(alloc: Global, segments: &mut Vec<Segment>, memory: Data<'_>) -> Result<(), Memory>
    requires sizes { HaveSizes (data_of memory).objects }
    requires fit { FitRegions memory.frames_end (spots_in (data_of memory)) }
    requires frames { 0x2000_0000 ≤ memory.frames_end }
    ensures { OnOk result (segments.new.items ≡ segments.old.items ++ present (ram_segments (data_of memory.entry))) }
{
    put_data(
        segments,
        0x2000_0000,
        Vec::new(alloc),
        memory.frames_end - 0x2000_0000,
        true,
    )?;
    put_zeros(alloc, segments, memory, Row::SmallLocals)?;
    put_values(alloc, segments, memory, Row::SmallGlobals, true)?;
    put_values(alloc, segments, memory, Row::LargeGlobals, true)?;
    put_zeros(alloc, segments, memory, Row::LargeLocals)
}

/// The image of a program's code and data.
pub fn image(alloc: Global, entry: u32, code: Code, memory: Data<'_>) -> Result<Image, Memory>
    requires sizes { HaveSizes (data_of memory).objects }
    requires fit { FitSegments (data_of memory) code.flash.items code.scratchpad.items }
    ensures { IfOk result (λ i. i ≡ record { entry = entry; segments = segments_of (data_of memory.entry) code.flash.items code.scratchpad.items }) }
{
    let mut segments = Vec::new(alloc);
    put_low(alloc, &mut segments, memory, code)?;
    put_ram(alloc, &mut segments, memory)?;
    Ok(Image::new(entry, segments))
}
