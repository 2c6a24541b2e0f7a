//! The low form of a program: functions of basic blocks over virtual registers, each loop a range of
//! blocks with one header and one jump back.
//!
//! `specs/` has a program without where it lies in memory (`Code`, `View`), what an instruction does
//! (`Effects`), its runs over any store of registers (`Runs`), how often loops start (`Turns`), what a
//! program keeps to (`Formed`), how many machine instructions it takes and executes (`Room`), which
//! registers live where (`Live`), the run over places (`Places`) and what an assignment of places has
//! to meet (`Spacing`). The operators and conditions are the machine's own.
//!
//! Proved: [`Low`] keeps to `IsLow`, and [`example_is_low`] says that this can be met; in a [`LowReg`]
//! registers that live together have different places, and [`all_slots`] gives each a slot of its own.
//! What that is worth is the law of the crate `register_places`.
//!
//! This crate knows no tree, no address and no pass.
#![tactic(auto)]

pub mod instruction;
mod laws;
pub mod low;
pub mod object;
pub mod places;
pub mod run;
mod slots;

pub use instruction::{Address, Base, End, Instr, Operand};
pub use laws::example_is_low;
pub use low::{Block, Function, Loop, Low};
pub use places::{LowReg, Place, Placing};
pub use run::{Began, Value};
pub use slots::all_slots;
