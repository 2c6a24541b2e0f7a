//! The law of jump threading: what a program keeps whose jumps go past blocks that do nothing.
//!
//! A block without mark and code, at which no loop begins or ends, only goes on: where its end leads to one block for what is known of
//! registers, what comes to it can go to that block at once. What is known are words that a block has just written, or that a branch has
//! just compared, and what each block that leads somewhere knows alike (`specs/Known`). Blocks that nothing leads to any more are left
//! out, and the others have new numbers (`specs/Threads`). How such ways are found is no matter here.
//!
//! Proved, each by a call with an empty body: [`threads_run`], that each good run is a good run of the other program with the same
//! value, arrays, output and marks; [`threads_are_formed`], that it keeps to the low form; [`threads_cost_no_more`].
//!
//! The crate knows no machine register and no high form.
#![tactic(auto)]

mod laws;

pub use laws::{threads_are_formed, threads_cost_no_more, threads_run};
