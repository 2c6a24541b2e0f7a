//! Makes the memory of a program: the frames of its functions and the addresses of its arrays.
//!
//! Frames lie one behind the other from the beginning of RAM on, in the order of the functions (`specs/Walks.antt`), with
//! the registers that `image_saving` finds; arrays lie in the rows of `image_segments`, where it begins them. The
//! time is linear in the code, and in the calls and functions for each register.
//!
//! Proved: [`memory`] gives what `image_frames` defines of the program over its places, wherever that has room in its
//! regions and no function has 2^64 instructions; so do [`frames`],
//! [`array_addresses`] and [`second`], its parts. `Memory` is free.
//!
//! The crate knows no instruction.
#![tactic(auto)]

mod arrays;
mod walks;

pub use arrays::{Placement, array_addresses, memory, second};
pub use walks::{FrameRow, frames};
