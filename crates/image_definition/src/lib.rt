//! The image of a program over places, what it holds, and which programs have room in one.
//!
//! `specs/Images` has the image: code in flash from address 0, and in the scratchpad behind the arrays that are
//! placed there; constants at the end of flash; frames and the other arrays in RAM. It is entered at the start code, the
//! last function.
//!
//! Proved, each by a call with an empty body: [`images_are_laid`], that where code, with items in their longest forms,
//! and data fit their regions, the image holds the code as `asm_graphs` wants it of the program's graph, so that each
//! reached address is code and that loops fit the flow system of the image; and [`images_are_loadable`], that its
//! segments can then be loaded. Code and data fit their regions where the room of its
//! code, its arrays, the slots of its frames and the sizes of what is placed in the scratchpad keep to the bounds of
//! `specs/Sizes` ([`sizes_fit`]); and where nothing is placed the others are enough ([`nothing_fits`]). The sizes are the same
//! whatever is placed, and whatever a placement moves, code takes no more than its room.
//!
//! The crate knows no runs, and not how items are made.
#![tactic(auto)]

mod laws;

pub use laws::{images_are_laid, images_are_loadable, nothing_fits, sizes_fit};
