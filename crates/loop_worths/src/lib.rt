//! The walks through the code of one function with its loops, in 128 bits.
//!
//! [`settle`] finds what is still to come at each place, the weights of the headers and the multipliers of the loops, in
//! time linear in the steps with each loop around them. Proved: they are those of the definitions of `loop_walks`, so
//! each step is paid. That all numbers fit is a condition, which `specs/Sizes` says.
#![tactic(auto)]

mod level;
mod pair;
mod turn;
mod walk;

pub use level::{ground, settle};
pub use turn::{further, gain_by, turn_ways, way_at};
pub use walk::sum;
