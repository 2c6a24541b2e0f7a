//! The items of a program in the low form over places have instructions of RV32IM, and take no more room than the program counts.
//!
//! The law [`items_are_sound`] asks that the places which are registers are among the 24 that hold values, and that a
//! function saves no other registers; each item then keeps the ranges of its fields. Addresses and words may be any: what an
//! immediate can't say comes into a register.
//!
//! `low_ir` counts the room of a program by its instructions and ends, and 64 for each function. Proved, each by a
//! call with an empty body: [`longest_has_room`], that the items of a program, its start code included, take at most
//! 4 bytes for each of these, even in their longest forms; and [`chosen_has_room`], that so do the forms that
//! `asm_forms` chooses. A layout knows by it that its rows end where they have to.
//!
//! The size of a function (`specs/Functions`) is nearer to what it takes: that of its items in their longest forms, where
//! every array is far. Proved: [`sizes_are_kept`], that it is the same wherever arrays lie and whatever x7 holds, so that a choice of what to
//! place in the scratchpad may add sizes up.
//!
//! The crate knows no addresses of code and no machine's runs.
#![tactic(auto)]

mod laws;

pub use laws::{chosen_has_room, items_are_sound, longest_has_room, sizes_are_kept};
