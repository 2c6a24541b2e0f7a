//! Chooses the forms of items: the shortest in which each reaches its target.
//!
//! How long code is depends on how far its jumps lead, and that on how long the code is. Here each item first has its
//! longest form, and then twice the shortest that its distance allows; distances only fall by that. (Szymanski 1978,
//! Assembling Code for Machines with Span-Dependent Instructions, finds the least lengths; two rounds find those but
//! where an item at the edge of its reach waits for another to become shorter.) The time is linear in the items.
//!
//! Proved: [`form`] gives the functions that `specs/Layouts.antt` defines, the addresses at which they and their blocks
//! begin, and that with these each item reaches its target; an item leads where it led before. `Memory` is free.
//!
//! The crate knows no program, and not in which order functions and blocks stand.
#![tactic(auto)]

mod distances;
mod fits;
mod forms;
mod layouts;
mod regions;
mod shorter;

pub use forms::form;
pub use layouts::Layout;
pub use regions::Regions;
