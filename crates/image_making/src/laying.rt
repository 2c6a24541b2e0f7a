// The memory, the layout and the image of a program.
ghost use Rattle.std.specs.Prelude.{◌≡◌, slice_index, IfOk};
ghost use Rattle.low_ir.specs.Programs.{low_of};
ghost use Rattle.low_ir.specs.Placings.{placed_of};
ghost use Rattle.asm_forms.specs.Laid.{IsFormed};
ghost use Rattle.image_segments.specs.Views.{data_of};
ghost use Rattle.image_frames.specs.Memories.{memory_of};
ghost use Rattle.image_definition.specs.Images.{data_in, rows_in, items_in, entry_in, flash_bytes, scratchpad_bytes, image_in, FitsImage};
ghost use Rattle.image_saving.specs.Walks.{HaveSpots};

use asm_code::items_of;
use asm_data::Data;
use asm_forms::{Layout, Regions, form};
use asm_rows::row;
use image_memory::{Placement, array_addresses, frames, second};
use image_segments::{Code, Data as Segments, image, placed_end};
use low_ir::LowReg;
use rv_core::Image;
use std::alloc::Global;
use wcc_base::Memory;

/// A program in memory.
#[derive(Drop)]
pub struct Assembly {
    /// Its frames and arrays.
    pub memory: Data,
    /// Its items in their forms, those of the start code last, and where they lie.
    pub layout: Layout,
    pub image: Image,
}

/// The items of a program, each in the shortest form with which it reaches its target, and where they lie.
fn layout(
    alloc: Global,
    code: &LowReg,
    placement: &Placement,
    memory: &Data,
    placed_end: u32,
) -> Result<Layout, Memory>
    requires memory { memory.now ≡ memory_of placement.now (placed_of code.now) }
    requires end { placed_end ≡ (rows_in placement.now (placed_of code.now)).scratchpad }
    requires fit { FitsImage placement.now (placed_of code.now) }
    ensures { IfOk result (λ l. IsFormed (rows_in placement.now (placed_of code.now)) (items_in placement.now (placed_of code.now)) l) }
{
    let items = items_of(alloc, code, memory)?;
    let regions = Regions {
        placed: &placement.functions,
        flash: 0,
        scratchpad: placed_end,
    };
    form(alloc, regions, &items)
}

/// The bytes of the code in flash and in the scratchpad.
fn code_of(
    alloc: Global,
    code: &LowReg,
    placement: &Placement,
    layout: &Layout,
) -> Result<Code, Memory>
    requires formed { IsFormed (rows_in placement.now (placed_of code.now)) (items_in placement.now (placed_of code.now)) layout.now }
    requires fit { FitsImage placement.now (placed_of code.now) }
    ensures flash { IfOk result (λ c. c.flash.items ≡ flash_bytes placement.now (placed_of code.now)) }
    ensures scratchpad { IfOk result (λ c. c.scratchpad.items ≡ scratchpad_bytes placement.now (placed_of code.now)) }
{
    let flash = row(alloc, layout, &placement.functions, false)?;
    let scratchpad = row(alloc, layout, &placement.functions, true)?;
    Ok(Code { flash, scratchpad })
}

fn base_of(layout: &Layout, function: usize) -> u32
    ensures { result ≡ slice_index layout.now.bases.items function }
{
    match layout.bases.get(function) {
        Some(base) => *base,
        None => 0,
    }
}

/// Where the start code begins, behind the functions of the program.
fn entry_of(code: &LowReg, placement: &Placement, layout: &Layout) -> u32
    requires { IsFormed (rows_in placement.now (placed_of code.now)) (items_in placement.now (placed_of code.now)) layout.now }
    ensures { result ≡ entry_in placement.now (placed_of code.now) }
{
    base_of(layout, code.low.functions.len())
}

/// The image of a layout.
fn image_of(
    alloc: Global,
    code: &LowReg,
    placement: &Placement,
    layout: &Layout,
    segments: Segments<'_>,
) -> Result<Image, Memory>
    requires formed { IsFormed (rows_in placement.now (placed_of code.now)) (items_in placement.now (placed_of code.now)) layout.now }
    requires segments { data_of segments ≡ data_in placement.now (placed_of code.now) }
    requires fit { FitsImage placement.now (placed_of code.now) }
    ensures { IfOk result (λ i. i ≡ image_in placement.now (placed_of code.now)) }
{
    let bytes = code_of(alloc, code, placement, layout)?;
    image(alloc, entry_of(code, placement, layout), bytes, segments)
}

/// A program in this memory.
fn assembled(
    alloc: Global,
    code: &LowReg,
    placement: &Placement,
    memory: Data,
    segments: Segments<'_>,
) -> Result<Assembly, Memory>
    requires memory { memory ≡ memory_of placement.now (placed_of code.now) }
    requires segments { data_of segments ≡ data_in placement.now (placed_of code.now) }
    requires fit { FitsImage placement.now (placed_of code.now) }
    ensures memory { IfOk result (λ a. a.memory ≡ memory_of placement.now (placed_of code.now)) }
    ensures layout { IfOk result (λ a. IsFormed (rows_in placement.now (placed_of code.now)) (items_in placement.now (placed_of code.now)) a.layout) }
    ensures image { IfOk result (λ a. a.image ≡ image_in placement.now (placed_of code.now)) }
{
    let layout = layout(alloc, code, placement, &memory, placed_end(segments))?;
    let image = image_of(alloc, code, placement, &layout, segments)?;
    Ok(Assembly {
        memory,
        layout,
        image,
    })
}

/// The memory, the layout and the image of a program.
pub fn assemble(alloc: Global, code: &LowReg, placement: &Placement) -> Result<Assembly, Memory>
    requires spots { HaveSpots (low_of code.now.low).functions }
    requires fit { FitsImage placement.now (placed_of code.now) }
    ensures memory { IfOk result (λ a. a.memory ≡ memory_of placement.now (placed_of code.now)) }
    ensures layout { IfOk result (λ a. IsFormed (rows_in placement.now (placed_of code.now)) (items_in placement.now (placed_of code.now)) a.layout) }
    ensures image { IfOk result (λ a. a.image ≡ image_in placement.now (placed_of code.now)) }
{
    let frames = frames(alloc, code)?;
    let segments = Segments {
        frames_end: frames.end,
        placed: &placement.objects,
        objects: &code.low.objects,
    };
    let objects = array_addresses(alloc, frames.end, code, placement)?;
    let second = second(frames.end, code, placement);
    let memory = Data::new(alloc, frames.frames, objects, second);
    assembled(alloc, code, placement, memory, segments)
}
