//! Writes the bytes of a program's code: the functions of flash in a row, and those of the scratchpad in another.
//!
//! Proved: [`row`] gives the bytes of the instructions of a row (`asm_placed/specs/Written.antt`), low ones first,
//! as the machine fetches them, and [`exits`] the addresses at which the program ends. `Memory` is free. The time is linear in the items.
//!
//! The crate knows no program, and not where rows begin.
#![tactic(auto)]

mod leaving;
mod writing;

pub use leaving::exits;
pub use writing::row;
