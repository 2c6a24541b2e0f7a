//! Lays a program wherever it has room.
//!
//! What a placement takes is said by the sizes of functions, and any layout lists these. So [`lay_unplaced`] lays a program with
//! nothing in the scratchpad, [`sizes_of`] takes the sizes from that layout, and by them [`lay_placed`] lays it with a placement.
//!
//! Proved: each has an answer exactly where the program keeps to the bounds of `image_definition`, or memory ran out; the layouts are
//! those of `layout_program`, and the sizes those of the functions with any placement.
//!
//! The crate chooses no placement.
#![tactic(auto)]

mod fitting;

pub use fitting::{lay_placed, lay_unplaced, sizes_of};
