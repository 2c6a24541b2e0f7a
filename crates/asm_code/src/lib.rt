//! Makes the items of a program in the low form whose registers have places.
//!
//! `scope` says what the code of a function takes from its program; `passing` and `calls` what a call passes, `instrs`
//! the items of an instruction and of the end of a block, `blocks` those of blocks and of a function, `programs` those
//! of all functions and of the start code.
//!
//! Proved: [`items_of`] makes the items that `asm_program` defines of a `LowReg`, for any frames and addresses of arrays,
//! or memory ran out (more than 2^32 blocks count as that). By the law [`places_are_there`] its places are among those
//! of the machine, so `asm_sound` holds of the items. The time is linear in the items.
//!
//! The crate knows no addresses of code, and not how frames are chosen.
#![tactic(auto)]

mod blocks;
mod calls;
mod instrs;
mod laws;
mod passed;
mod passing;
mod programs;
mod scope;

pub use blocks::{Spot, emit_opening, place_behind};
pub use instrs::{emit_end, emit_instr, emit_return};
pub use laws::places_are_there;
pub use programs::{items_of, scope_of};
pub use scope::Scope;
