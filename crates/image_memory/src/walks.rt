// The frames of a program's functions.
ghost use Rattle.std.specs.Prelude.{◌≡◌, ◌<◌, ◌^◌, map, length, IfOk};
ghost use Rattle.low_ir.specs.View.{function_of};
ghost use Rattle.low_ir.specs.Programs.{low_of};
ghost use Rattle.low_ir.specs.Placings.{assignment_of, placed_of};
ghost use Rattle.asm_program.specs.Frames.{frame_end};
ghost use Rattle.image_frames.specs.Frames.{frames_of, frames_end};
ghost use Rattle.image_saving.specs.Saved.{columns_of};
ghost use Rattle.image_saving.specs.Walks.{HaveSpots};
ghost use Rattle.image_memory.specs.Walks.{frame_by, frames_by, end_by, HaveRoom};

use asm_data::Frame;
use image_saving::{Outline, columns, homes, outlines, saved};
use low_ir::LowReg;
use std::alloc::Global;
use wcc_base::{Items, Memory};

/// Frames that lie one behind the other, and where they end.
#[derive(Drop)]
pub struct FrameRow {
    pub frames: Vec<Frame>,
    pub end: u32,
}

/// How many slots a function has.
fn slots(code: &LowReg, number: usize) -> u32
    ensures { result ≡ (assignment_of code.now).slots number }
{
    match code.placings.get(number) {
        Some(placing) => placing.slots,
        None => 0,
    }
}

/// The frame of a function, if it begins at an address.
fn frame(
    alloc: Global,
    code: &LowReg,
    outlines: &[Outline],
    columns: &[Items<bool>],
    at: u32,
    number: usize,
) -> Result<Frame, Memory>
    requires columns { columns.now ≡ columns_of outlines.now }
    requires there { number < length outlines.now }
    ensures { IfOk result (λ f. f ≡ frame_by (assignment_of code.now) outlines.now at number) }
{
    let saved = saved(alloc, outlines, columns, number)?;
    let outline = &outlines[number];
    let homes = homes(alloc, outline)?;
    Ok(Frame::new(at, saved, homes, slots(code, number)))
}

/// Where a frame with so many slots ends.
fn end_of(frame: &Frame, slots: u32) -> u32
    requires slots { frame.now.slots ≡ slots }
    requires room { frame_end frame.now < 2 ^ 32 }
    ensures { result ≡ frame_end frame.now }
{
    frame.slot_at(slots) as u32
}

/// The frames of all functions by what each does with registers, one behind the other from the beginning of
/// RAM on.
fn frames_by(
    alloc: Global,
    code: &LowReg,
    outlines: &[Outline],
    columns: &[Items<bool>],
) -> Result<FrameRow, Memory>
    requires columns { columns.now ≡ columns_of outlines.now }
    requires count { length outlines.now ≡ length code.now.low.functions.items }
    requires room { HaveRoom (assignment_of code.now) outlines.now 0x2000_0000 0 (map function_of code.now.low.functions.items) }
    ensures frames { IfOk result (λ f. f.frames.items ≡ frames_by (assignment_of code.now) outlines.now 0x2000_0000 0 (map function_of code.now.low.functions.items)) }
    ensures end { IfOk result (λ f. f.end ≡ end_by (assignment_of code.now) outlines.now 0x2000_0000 0 (map function_of code.now.low.functions.items)) }
{
    let mut frames = Vec::new(alloc);
    let mut at = 0x2000_0000;
    for (number, _) in code.low.functions.iter().enumerate() {
        let frame = frame(alloc, code, outlines, columns, at, number)?;
        at = end_of(&frame, slots(code, number));
        frames.push(frame)?;
    }
    Ok(FrameRow { frames, end: at })
}

/// The frames of all functions, one behind the other from the beginning of RAM on.
pub fn frames(alloc: Global, code: &LowReg) -> Result<FrameRow, Memory>
    requires spots { HaveSpots (low_of code.now.low).functions }
    requires room { frames_end (placed_of code.now) < 2 ^ 32 }
    ensures frames { IfOk result (λ f. f.frames.items ≡ frames_of (placed_of code.now)) }
    ensures end { IfOk result (λ f. f.end ≡ frames_end (placed_of code.now)) }
{
    let outlines = outlines(alloc, code)?;
    let columns = columns(alloc, &outlines)?;
    frames_by(alloc, code, &outlines, &columns)
}
