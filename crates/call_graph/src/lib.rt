//! Call ranks, or the first function that reaches itself by calls (C11 6.5.2.2).
//!
//! Proved: `ranks` answers for each function the greatest number of calls in a chain of calls that begins at it, and
//! so ranks fall along calls; or exactly the first function, in the order of definitions, that reaches itself. All
//! functions count, whether main reaches them or not.
//!
//! Ranks take a step for each call. Only a refusal costs more: each function is then asked by itself.
#![tactic(auto)]

mod calls;
mod graph;
mod ranking;
mod spread;
mod visit;

pub use ranking::ranks;
pub use types_calls::CallFault;
