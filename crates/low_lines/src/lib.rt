//! Functions of the low form, as lines of text have them: what the programs of cases of this group read and write.
//!
//! The parts of a function stand between semicolons: how many registers it has, its parameters, and then each block, its
//! instructions and its end between commas: `3; r0; set r1 r0, sum r2 r1 7, jump 1; return r2`. A loop is told at its header with
//! the number of its latch: `loop 4, set r1 0, jump 2`. Words that mean nothing are passed over, and a block without an end
//! returns 0. Nothing is proved of what a line means.
#![tactic(auto)]

mod blocks;
mod function;
mod instructions;
mod loops;
mod shown;
mod words;

pub use function::function_of;
pub use shown::function_shown;
