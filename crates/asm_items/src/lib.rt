//! Items of code: instructions that belong together, with named targets.
//!
//! Code is emitted as items ([`Item`]). A jump and a branch name a block of their function, and a call
//! names a function, so that code doesn't depend on where it lies; when each block has its place
//! (`specs/Placings.antt`), an item has its instructions (`specs/Items.antt`). A jump is a JAL where that
//! reaches and else AUIPC with JALR, and a branch stands by itself or, with the opposite condition, over
//! either of them. As the words of such a pair are one item, no jump ends between them.
//!
//! Proved, each by a call with an empty body: [`code_stands`], that the instructions which a segment was
//! filled with are fetched at their addresses; [`items_stand`], that items stand where their instructions
//! do; [`links_none`], that no return is taken for a far jump; and [`blocks_keep_promises`], that each word
//! of a block goes where the block promises (`specs/Promises.antt`, `specs/Outcomes.antt`), which is what
//! the flow system of the image has of it, whichever form each item has.
//!
//! The crate knows no program, no compiler, and not how forms are chosen.
#![tactic(auto)]

mod item;
mod laws;

pub use item::{Form, Item};
pub use laws::{blocks_keep_promises, code_stands, items_stand, links_none};
