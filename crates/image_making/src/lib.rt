//! Lays a program: its image, with code, frames and arrays where a placement puts them.
//!
//! The memory is that of `image_memory`, the items those of `asm_code` over it; `asm_forms` gives them their forms, behind
//! the arrays of the scratchpad and from the beginning of flash, `asm_rows` writes both rows, and `image_segments` makes
//! the image. The start code is the last function, and where the image begins to run. The time is linear in the items, the
//! bytes of the arrays, and the calls and functions for each register.
//!
//! Proved: [`assemble`] gives the memory, the layout and the image that `image_frames`, `asm_forms` and `image_definition` define
//! of the program over its places, wherever that has room, so their laws hold of them; [`array_regions`] the region of each
//! array. `Memory` is free.
//!
//! The crate knows no instruction and no claim.
#![tactic(auto)]

mod laying;
mod regions;

pub use laying::{Assembly, assemble};
pub use regions::array_regions;
