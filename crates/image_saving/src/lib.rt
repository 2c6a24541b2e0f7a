//! Finds which registers functions save.
//!
//! A walk over the code of each function (`specs/Walks.antt`) gives its outline: the registers that it writes, those in
//! which it gets arguments, those that have words in its frame for the time of a call, and its calls. By these, for each
//! register, needs are spread from callers to callees, which have lower numbers; a function saves what it writes and
//! others need. The time is linear in the code, and in the calls and functions for each register.
//!
//! Proved: [`outlines`] gives those that `image_frames` defines of the program over its places, and [`columns`], [`saved`]
//! and [`homes`] the registers that it says. `Memory` is free.
//!
//! The crate knows no addresses.
#![tactic(auto)]

mod choosing;
mod sites;
mod spreading;
mod tables;
mod walks;

pub use choosing::{columns, homes, saved};
pub use sites::Site;
pub use spreading::needing;
pub use walks::{Outline, outlines};
