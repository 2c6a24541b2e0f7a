//! The outside of the compiler, and what every other crate shares.
//!
//! Files and the standard output stand behind two traits, `Store` and `Sink`, whose contracts say
//! what a call did to the bytes and to the counts of faults: one of them is raised exactly in a call
//! that answers `Failed`, so that a fault can't be told as want of memory, nor want of memory as a
//! fault. The stores and sinks that there are stand in `base_stores`.
//!
//! Beside them stand the ways in which a call ends, the limits of its inputs, the budgets
//! of a program on its way, lists that contracts see as lists, and the operators on words of 32 bits. Nothing here knows a language or a machine.
#![tactic(auto)]

mod budgets;
mod compare;
mod items;
mod limits;
mod memory;
mod outside;
mod signs;
mod status;
mod text;
pub mod words;

pub use budgets::{
    MOST_DEPTH, MOST_INSTRUCTIONS, MOST_LOCALS, MOST_OPERATIONS, SPARE_ROOM, budgets_agree,
};
pub use compare::Compare;
pub use items::Items;
pub use limits::{Bound, limit_of};
pub use memory::Memory;
pub use outside::{Fault, Sink, Store};
pub use signs::sign_extend;
pub use status::Status;
pub use text::Text;
