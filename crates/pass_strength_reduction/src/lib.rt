//! Strength reduction: elements are reached through pointers that step, where addresses were found by indexes.
//!
//! What is proposed is free (`pass_strength_search`). It is checked, function by function: the new code of each block is made of the old by its
//! edits, and what is known goes along (`editing`): an access may go through another register that surely leads to the same element
//! (`serving`), and more instructions may write spare registers (`inserting`). At a block's end what is known as the next one begins
//! has to follow (`ending`). A function that doesn't pass stays as it is, and so does a program that would take too long (`weighing`)
//! or too much room: more than passes may make, or more than twice what it took (`sizes`). The time is linear in the code and the facts of its blocks.
//!
//! Proved: [`stepped`] gives a program of which `pass_strength_reduction_law` speaks, of at most twice the room, or the program as it is.
//! That pointers are found is not proved.
//!
//! The crate knows no machine register and no high form.
#![tactic(auto)]

mod editing;
mod ending;
mod functions;
mod inserting;
mod program;
mod registers;
mod scope;
mod serving;
mod sizes;
mod weighing;

pub use program::stepped;
