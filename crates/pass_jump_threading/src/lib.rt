//! Jump threading: jumps go past blocks that do nothing, and blocks that nothing leads to are left out.
//!
//! One forward sweep over the blocks of a function plans (`planning`): what is known where each block begins, by the ways that lead to
//! it, and which blocks are led to at all; `choosing` says which registers have one word in the whole function. A second one makes the
//! blocks (`making`): each end goes on past blocks without mark and code whose end leads to one block for what is known (`ways`,
//! `ends`), and blocks that nothing leads to are left out. So a `switch` comes from the label that it finds to that label's part
//! without a test of its number. The time is linear: a way goes past at most so many blocks, and a block begins with at most so many
//! facts.
//!
//! A block whose mark a pass left where no kept run comes stays even where no way leads to it, so that the image has its place.
//!
//! Proved: [`threaded`] gives a program of which `pass_jump_threading_law` speaks, or the program as it was. What is planned is not proved:
//! where a plan doesn't fit, the program stays as it is.
//!
//! The crate knows no machine register and no high form.
#![tactic(auto)]

mod choosing;
mod ends;
mod facts;
mod making;
mod planning;
mod program;
mod ways;

pub use program::{functions_threaded, threaded};
