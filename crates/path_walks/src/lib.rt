//! The walks through a whole system, in 128 bits (Li and Malik 1995, implicit path enumeration; no linear program is
//! solved, since loops that nest give the longest path in linear time).
//!
//! [`settle_all`] makes the steps and loops of each function over places, a called function before its callers, and
//! settles them. Proved: what it answers are the worths, the weights and the multipliers of the definitions of
//! `path_places`, at any prices. That all numbers fit is a condition, which `specs/Sizes` says. Places are
//! found by halving, and each step is walked once for each loop around it.
//!
//! The crate knows nothing of certificates and flows, and of where prices come from.
#![tactic(auto)]

mod deal;
mod open;
mod place;
mod priced;
mod ring;
mod step;
mod walks;

pub use open::is_open;
pub use place::place_of;
pub use priced::Priced;
pub use ring::loops;
pub use step::steps;
pub use walks::{Settled, settle_all};
