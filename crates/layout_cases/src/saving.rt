// The registers that the functions of the sum of squares save, their frames, and where slots and arrays lie.
ghost use Rattle.std.specs.Prelude.{◌<◌};
ghost use Rattle.low_ir.specs.Places.{machine_registers};

use crate::arrays::{ARRAYS, objects};
use crate::laying::{memory_of, nothing};
use crate::programs::sum_of_squares;
use crate::registers::in_registers;
use crate::rooms::is_small;
use asm_data::{Data, Frame};
use image_memory::{FrameRow, frames};
use image_saving::{Outline, columns, homes, needing, outlines, saved};
use low_ir::{LowReg, all_slots};
use std::alloc::Global;
use wcc_base::Memory;

/// The sum of squares over registers.
fn code_of(alloc: Global) -> Result<LowReg, Memory> {
    in_registers(alloc, sum_of_squares(alloc, Vec::new(alloc))?)
}

fn outlines_in(alloc: Global, code: &LowReg) -> Result<Vec<Outline>, Memory> {
    if !is_small(code) {
        return Err(Memory);
    }
    outlines(alloc, code)
}

/// The registers of a table, register q by the bit of value 2^q.
fn mask(table: &[bool; 24]) -> u32 {
    let mut mask = 0;
    for register in 0..24u32 {
        if table[register as usize] {
            mask |= 1 << register;
        }
    }
    mask
}

/// What a function writes, gets arguments in and has words for, and the number of its calls.
fn outline_line(alloc: Global, outline: &Outline) -> Result<String, Memory> {
    let (written, passed, housed) = (
        mask(&outline.written),
        mask(&outline.passed),
        mask(&outline.housed),
    );
    let calls = outline.sites.as_slice().len();
    Ok(format!(in alloc; "writes {written:b} passed {passed:b} words {housed:b} calls {calls}\n")?)
}

/// The registers that a function saves.
fn saved_in(alloc: Global, outlines: &[Outline], function: usize) -> Result<Vec<u8>, Memory> {
    let columns = columns(alloc, outlines)?;
    let found = saved(alloc, outlines, &columns, function);
    drop(columns);
    found
}

/// The registers that a function saves, and those that have words in its frame.
fn saving_line(
    alloc: Global,
    outlines: &[Outline],
    function: usize,
    outline: &Outline,
) -> Result<String, Memory> {
    let saved = saved_in(alloc, outlines, function)?;
    let homes = homes(alloc, outline)?;
    Ok(format!(in alloc;
        "saves {:?} words {:?}\n",
        saved.as_slice(),
        homes.as_slice()
    )?)
}

/// By function, whether those that wait for it need a register.
fn needing_line(alloc: Global, outlines: &[Outline], register: usize) -> Result<String, Memory>
    requires { register < machine_registers }
{
    let needs = needing(alloc, outlines, register)?;
    Ok(format!(in alloc; "needed {register} {:?}\n", needs.as_slice())?)
}

fn outlined(alloc: Global, outlines: &[Outline]) -> Result<String, Memory> {
    let mut lines = String::new(alloc);
    for (function, outline) in outlines.iter().enumerate() {
        lines.push_str(outline_line(alloc, outline)?.as_str())?;
        lines.push_str(saving_line(alloc, outlines, function, outline)?.as_str())?;
    }
    lines.push_str(needing_line(alloc, outlines, 0)?.as_str())?;
    lines.push_str(needing_line(alloc, outlines, 23)?.as_str())?;
    Ok(lines)
}

fn saved_over(alloc: Global, code: &LowReg) -> Result<String, Memory> {
    let outlines = outlines_in(alloc, code)?;
    let told = outlined(alloc, &outlines);
    drop(outlines);
    told
}

/// What functions save over registers. `square` has its parameter in register 0 and writes its square to 1. main has its count in
/// 0, its sum in 1 and the value of the call in 2, and passes the count in 0, which it keeps in a word of its frame. The call
/// keeps all registers, so all but that of the argument are needed of `square`, which saves what it writes of them. Nobody waits
/// for main.
pub fn saved_registers(alloc: Global) -> Result<String, Memory> {
    let code = code_of(alloc)?;
    let told = saved_over(alloc, &code);
    drop(code);
    told
}

#[tactic(auto, using(crate::proofs::Rooming::small_frames))]
fn frames_in(alloc: Global, code: &LowReg) -> Result<FrameRow, Memory> {
    if !is_small(code) {
        return Err(Memory);
    }
    frames(alloc, code)
}

/// Where a frame begins, and has the words of register 1, which is saved, of register 0, and of its first slot.
fn frame_line(alloc: Global, frame: &Frame) -> Result<String, Memory> {
    let (at, saved) = (frame.at(), frame.saved_at(1));
    let (home, slot) = (frame.home_at(0), frame.slot_at(0));
    Ok(format!(in alloc; "frame {at:08x} {saved:08x} {home:08x} {slot:08x}\n")?)
}

fn frame_lines(alloc: Global, row: &FrameRow) -> Result<String, Memory> {
    let mut lines = String::new(alloc);
    for frame in &row.frames {
        lines.push_str(frame_line(alloc, frame)?.as_str())?;
    }
    lines.push_str(format!(in alloc; "end {:08x}\n", row.end)?.as_str())?;
    Ok(lines)
}

fn framed(alloc: Global, code: &LowReg) -> Result<String, Memory> {
    let row = frames_in(alloc, code)?;
    let told = frame_lines(alloc, &row);
    drop(row);
    told
}

/// The frames over registers, and the end of the last. That of `square` has a return address, a register that it saves, one that has
/// a word, and 2 slots; that of main, which saves nothing, has 3.
pub fn frames_over_registers(alloc: Global) -> Result<String, Memory> {
    let code = code_of(alloc)?;
    let told = framed(alloc, &code);
    drop(code);
    told
}

/// Where the last slots of two functions and the frame of a third one lie, then arrays, by their numbers, and the second base.
fn memory_lines(alloc: Global, memory: &Data) -> Result<String, Memory> {
    let (first, second) = (memory.frame(0).slot_at(1), memory.frame(1).slot_at(2));
    let none = memory.frame(2).at();
    let mut lines = format!(in alloc; "slots {first:08x} {second:08x} {none:08x}\n")?;
    for object in 0..9 {
        let at = memory.object_at(object);
        lines.push_str(format!(in alloc; "array {object} {at:08x}\n")?.as_str())?;
    }
    let base = memory.second();
    lines.push_str(format!(in alloc; "second base {base:08x}\n")?.as_str())?;
    Ok(lines)
}

fn memory_in(alloc: Global, code: &LowReg) -> Result<String, Memory> {
    let placement = nothing(alloc);
    let memory = memory_of(alloc, code, &placement)?;
    let told = memory_lines(alloc, &memory);
    drop(memory);
    told
}

/// Frames and arrays over slots. A frame has the return address and a word for each register, 2 of `square` and 3 of main, which
/// begins at 0x2000000c. Arrays lie behind them, and constants in flash, where the second base is; what isn't there is at 0.
pub fn memory_over_slots(alloc: Global) -> Result<String, Memory> {
    let arrays = objects(alloc, &ARRAYS)?;
    let code = all_slots(alloc, sum_of_squares(alloc, arrays)?)?;
    let told = memory_in(alloc, &code);
    drop(code);
    told
}
