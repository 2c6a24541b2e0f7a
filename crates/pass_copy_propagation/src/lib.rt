//! Copy propagation and dead code elimination: copies of registers are left out, and instructions whose result nothing reads.
//!
//! Sweeps over a function find on which registers its blocks count at their beginning (`counting`), what becomes of each copy
//! (`choices`), and the code without the copies (`making`), where each value is read in the register in which it stands (`known`,
//! `renaming`). A value that is copied right behind the instruction that computes it is computed into the copy, if nothing else
//! reads it; a copy on which no block behind counts is left out, and its reads read what it is a copy of. An instruction is left out
//! too that only writes a register which nothing reads then, and what it reads isn't needed for it. A register on which more than a few
//! blocks count keeps all its copies and values. A value that lives in one block has a register of its own where one is left
//! (`numbers`), so that no register lives longer than its values: a function may have 256 registers in any case. The time is linear.
//!
//! Proved: [`without_copies`] gives a program of which `pass_copy_propagation_law` speaks, or the program as it was. What is chosen is not proved.
//!
//! The crate knows no machine register and no high form.
#![tactic(auto)]

mod beginning;
mod choices;
mod copy;
mod counting;
mod known;
mod making;
mod numbers;
mod reading;
mod renaming;

pub use making::{functions_without_copies, without_copies};
