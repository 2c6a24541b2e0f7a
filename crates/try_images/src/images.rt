// Programs with places, laid out where they have room.
use super::placing::everything;
use layout_fitting::{lay_placed, sizes_of};
use layout_program::Laid;
use low_ir::{Low, LowReg, all_slots};
use register_allocation::allocate;
use register_live_ranges::live;
use std::alloc::Global;
use wcc_base::Memory;

/// How registers get their places.
#[derive(Clone, Copy)]
pub enum Places {
    Slots,
    Registers,
}

/// Machine registers where they suffice.
fn in_registers(alloc: Global, low: Low) -> Result<LowReg, Memory> {
    let live = live(alloc, &low)?;
    allocate(alloc, low, &live)
}

/// The program with places.
pub fn with_places(alloc: Global, low: Low, places: Places) -> Result<LowReg, Memory> {
    match places {
        Places::Slots => all_slots(alloc, low),
        Places::Registers => in_registers(alloc, low),
    }
}

/// Laid out with everything in the scratchpad that has room there.
pub fn placed(alloc: Global, code: &LowReg) -> Result<Option<Laid>, Memory> {
    match sizes_of(alloc, code)? {
        None => Ok(None),
        Some(sizes) => {
            let placement = everything(alloc, &code.low, &sizes)?;
            lay_placed(alloc, code, &sizes, &placement)
        }
    }
}
