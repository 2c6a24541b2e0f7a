//! The law of copy propagation and dead code elimination: what a program keeps whose copies are left out.
//!
//! Within a block the value of a register may stand in another one, so that a copy between the two isn't needed; as a block begins
//! registers stand in their own places, those on which it doesn't count perhaps nowhere (`specs/Copies`). How a program is found that
//! does without copies is no matter here.
//!
//! Proved, each by a call with an empty body: [`copies_run`], that each good run is a good run of the other program with the same
//! value and the same world; [`copies_are_formed`], that it keeps to the low form; [`copies_cost_no_more`].
//!
//! The crate knows no machine register and no high form.
#![tactic(auto)]

mod laws;

pub use laws::{copies_are_formed, copies_cost_no_more, copies_run};
