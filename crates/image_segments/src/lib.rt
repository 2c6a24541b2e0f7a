//! Where the arrays of a program lie in memory, what is there at first, and the segments of an image: code and data in their regions.
//!
//! Arrays lie in six rows (`specs/Rows`), one behind the other in the order of their numbers, each at a multiple
//! of 4: constants, what is placed in the scratchpad, and small and large local arrays and globals, so that what is
//! small can lie where one instruction reaches it. `specs/Contents` has the bytes of a row: the values that its
//! arrays give, low bytes first, and zeros behind them. `specs/Starts` says where rows begin: constants at the end of flash, what is
//! placed at the beginning of the scratchpad, and in RAM, behind the frames of functions, first what is small. `specs/Segments` has
//! the segments in ascending order, none of them empty, and none both written and executed; frames and local arrays
//! have no bytes in them. A second base reaches the first 4096 bytes of what is placed, or of the constants where nothing is.
//!
//! Proved: [`array_size`] is what an array takes, a multiple of 4; [`addresses`], [`row_room`] and [`row_bytes`] give
//! what these files say of rows, in time linear in the arrays and their bytes, and [`starts`], [`second_base`], [`placed_end`] and
//! [`image`] what they say of segments; [`arrays_lie`], that an array lies in its row and behind those before it; [`rows_are_full`], that a
//! row has the bytes of its room; [`elements_stand`], that each element stands where its address says; [`segments_are_loadable`],
//! that the segments can be loaded where code and data fit their regions; [`segments_are_there`], that none is left out but empty ones;
//! [`elements_are_read`], that each element of an array is read where its address says; and [`memory_is_open`], that
//! frames, and arrays that aren't constant, can be written. `Memory` is free.
//!
//! The crate knows no instruction.
#![tactic(auto)]

mod beginnings;
mod contents;
mod images;
mod laws;
mod rows;

pub use beginnings::starts;
pub use contents::row_bytes;
pub use images::{Code, Data, image, placed_end, second_base};
pub use laws::{
    arrays_lie, elements_are_read, elements_stand, memory_is_open, rows_are_full,
    segments_are_loadable, segments_are_there,
};
pub use rows::{Row, addresses, array_size, row_room};
