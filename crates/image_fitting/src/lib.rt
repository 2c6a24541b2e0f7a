//! Whether a program has room in memory, with the functions and arrays in the scratchpad that a placement names.
//!
//! The room is what code and data take at most (`low_ir`'s `Room` and `image_definition`), so that nothing is laid out; what placed
//! functions take is said by their sizes, which any layout of the program lists. Each sum is taken from what there is, and ends
//! where that doesn't suffice. The time is linear in the code, the arrays and the functions.
//!
//! Proved: [`has_room`] and [`has_sizes`] answer yes where the program keeps to the bounds of `image_definition`, whatever is placed
//! and with a placement, and no where it doesn't; [`spend`] takes an amount.
//!
//! The crate lays nothing.
#![tactic(auto)]

mod code;
mod data;
mod sizes;

pub use code::spend;
pub use sizes::{has_room, has_sizes};
