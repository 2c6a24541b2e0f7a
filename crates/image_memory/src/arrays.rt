// Frames and the addresses of arrays.
ghost use Rattle.std.specs.Prelude.{◌≡◌, IfOk};
ghost use Rattle.low_ir.specs.Programs.{low_of};
ghost use Rattle.low_ir.specs.Placings.{placed_of};
ghost use Rattle.image_frames.specs.Frames.{frames_end};
ghost use Rattle.image_frames.specs.Memories.{memory_of, FitsMemory};
ghost use Rattle.image_saving.specs.Walks.{HaveSpots};

use super::walks::frames;
use asm_data::Data;
use image_segments::{Data as Segments, addresses, second_base, starts};
use low_ir::LowReg;
use std::alloc::Global;
use std::marker::Model;
use wcc_base::Memory;

/// By function and by array, whether it lies in the scratchpad; what a list doesn't reach doesn't.
#[derive(Drop)]
pub struct Placement {
    pub functions: Vec<bool>,
    pub objects: Vec<bool>,
}

impl Model for Placement {
    ghost use Rattle.image_frames.specs.Memories.{Placement as Placed};

    ghost Value = { Placed };

    ghost view = { λ p. record { functions = p.functions.items; objects = p.objects.items } };
}

/// The addresses of a program's arrays, if its frames end here.
pub fn array_addresses(
    alloc: Global,
    end: u32,
    code: &LowReg,
    placement: &Placement,
) -> Result<Vec<u32>, Memory>
    requires frames { end ≡ frames_end (placed_of code.now) }
    requires fit { FitsMemory placement.now (placed_of code.now) }
    ensures { IfOk result (λ a. a.items ≡ (memory_of placement.now (placed_of code.now)).objects) }
{
    let starts = starts(end, &placement.objects, &code.low.objects);
    addresses(alloc, starts, &placement.objects, &code.low.objects)
}

/// What the second base of a program holds, if its frames end here.
pub fn second(end: u32, code: &LowReg, placement: &Placement) -> u32
    requires frames { end ≡ frames_end (placed_of code.now) }
    requires fit { FitsMemory placement.now (placed_of code.now) }
    ensures { result ≡ (memory_of placement.now (placed_of code.now)).second }
{
    second_base(Segments {
        frames_end: end,
        placed: &placement.objects,
        objects: &code.low.objects,
    })
}

/// Where the frames and arrays of a program lie.
pub fn memory(alloc: Global, code: &LowReg, placement: &Placement) -> Result<Data, Memory>
    requires spots { HaveSpots (low_of code.now.low).functions }
    requires fit { FitsMemory placement.now (placed_of code.now) }
    ensures { IfOk result (λ m. m ≡ memory_of placement.now (placed_of code.now)) }
{
    let frames = frames(alloc, code)?;
    let objects = array_addresses(alloc, frames.end, code, placement)?;
    let second = second(frames.end, code, placement);
    Ok(Data::new(alloc, frames.frames, objects, second))
}
