// Programs that are laid.
ghost use Rattle.std.specs.Prelude.{◌≡◌, ◌<◌, ◌^◌, true, IfOk};
ghost use Rattle.asm_writing.specs.Targets.{starts_in, AreLow};
ghost use Rattle.asm_forms.specs.Regions.{RoomFrom};
ghost use Rattle.asm_forms.specs.Layouts.{functions_fit};
ghost use Rattle.low_ir.specs.Placings.{placed_of};
ghost use Rattle.image_frames.specs.Memories.{memory_of};
ghost use Rattle.claims_lists.specs.Places.{IsRoomy};

use crate::rooms::{are_few, is_small};
use asm_code::items_of;
use asm_data::Data;
use asm_forms::{Layout, Regions, form};
use image_memory::{Placement, memory};
use low_ir::LowReg;
use std::alloc::Global;
use wcc_base::Memory;

/// Where the frames and arrays of a small program lie.
pub fn memory_of(alloc: Global, code: &LowReg, placement: &Placement) -> Result<Data, Memory>
    ensures { IfOk result (λ m. m ≡ memory_of placement.now (placed_of code.now)) }
{
    if !is_small(code) {
        return Err(Memory);
    }
    memory(alloc, code, placement)
}

fn layout_in(
    alloc: Global,
    code: &LowReg,
    placement: &Placement,
    memory: &Data,
    scratchpad: u32,
) -> Result<Layout, Memory>
    requires memory { memory.now ≡ memory_of placement.now (placed_of code.now) }
    requires scratchpad { scratchpad < 2 ^ 29 }
    ensures low { IfOk result (λ l. AreLow l.starts.items) }
    ensures room { IfOk result (λ l. RoomFrom l.bases.items 0 l.functions.items) }
    ensures fit { IfOk result (λ l. functions_fit (starts_in l.starts.items) l.bases.items 0 l.functions.items ≡ true) }
    ensures roomy { IfOk result (λ l. IsRoomy l) }
{
    let items = items_of(alloc, code, memory)?;
    if !are_few(&items) {
        return Err(Memory);
    }
    let regions = Regions {
        placed: &placement.functions,
        flash: 0,
        scratchpad,
    };
    form(alloc, regions, &items)
}

/// The code of a small program, from the beginning of flash and from an address of the scratchpad on.
pub fn layout_of(
    alloc: Global,
    code: &LowReg,
    placement: &Placement,
    scratchpad: u32,
) -> Result<Layout, Memory>
    requires { scratchpad < 2 ^ 29 }
    ensures low { IfOk result (λ l. AreLow l.starts.items) }
    ensures room { IfOk result (λ l. RoomFrom l.bases.items 0 l.functions.items) }
    ensures fit { IfOk result (λ l. functions_fit (starts_in l.starts.items) l.bases.items 0 l.functions.items ≡ true) }
    ensures roomy { IfOk result (λ l. IsRoomy l) }
{
    let memory = memory_of(alloc, code, placement)?;
    layout_in(alloc, code, placement, &memory, scratchpad)
}

/// Nothing lies in the scratchpad.
pub fn nothing(alloc: Global) -> Placement {
    Placement {
        functions: Vec::new(alloc),
        objects: Vec::new(alloc),
    }
}

/// The first function lies in the scratchpad.
pub fn first_function(alloc: Global) -> Result<Placement, Memory> {
    Ok(Placement {
        functions: vec![in alloc; true; 1]?,
        objects: Vec::new(alloc),
    })
}
