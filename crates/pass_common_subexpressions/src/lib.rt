//! Common subexpression elimination and redundant load elimination: no value that a register holds is computed or loaded again.
//!
//! One sweep over each block, with the thirty-two newest facts of which register holds what a load or an operation would give (`facts`,
//! `known`): one that a fact answers becomes a copy of that register (`making`). A block to which one other alone leads begins with
//! what is known there (`beginnings`, `lists`), each other one with nothing. Loads, stores of words and operations teach facts; a
//! store ends those of elements that it may change, a call all of them, and a write those that name its register. The copies are then
//! left out by `pass_copy_propagation`. The time is linear.
//!
//! Proved: [`without_reloads`] gives a program of which `pass_common_subexpressions_law` speaks, or the program as it was. That values are found is not
//! proved.
//!
//! The crate knows no machine register and no high form.
#![tactic(auto)]

mod beginnings;
mod facts;
mod known;
mod lists;
mod making;
mod operands;
mod tests;

pub use making::{functions_without_reloads, without_reloads};
