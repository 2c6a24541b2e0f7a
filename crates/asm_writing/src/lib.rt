//! Writes items of code: their sizes, where the blocks of a function begin, and the words of it.
//!
//! `size_of` and `bytes_of` say how many bytes items take and `starts_of` where blocks begin; when all are
//! known, `put_blocks` gives the words of a function, in which each item leads to the address of its target.
//! `opposite_of` is the condition of a branch that goes where another does not.
//!
//! Proved: sizes, starts and words are those of `asm_items`, for items whose instructions keep the ranges of
//! their fields where they stand. `Memory` is free. By [`forms_keep`] a block keeps its promise in any forms.
//!
//! The crate knows no program, and not how forms are chosen.
#![tactic(auto)]

mod blocks;
mod laws;
mod offsets;
mod sizes;
mod targets;
mod words;

pub use blocks::put_blocks;
pub use laws::forms_keep;
pub use sizes::{bytes_of, size_of, starts_of};
pub use targets::target_of;
pub use words::opposite_of;
