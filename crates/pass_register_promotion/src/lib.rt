//! Register promotion: global scalars are kept in registers over the functions whose loops use them.
//!
//! Which ones is free (`choosing`): of each function the eight that its loops use most, in loops to which each run comes, or in others
//! where each run accesses the scalar twice at least (`ways`). They are checked (`suiting`, `paying`), function by function, and then
//! the program is made over them (`making`, `program`). What functions may touch is a table that is filled in one sweep, as calls go to
//! lower numbers. The time is that of the blocks of each function by its loops, and of the table, which has an entry for each function
//! and array.
//!
//! Proved: [`promoted`] gives a program of which `pass_register_promotion_law` speaks, or the program as it is. That scalars are found is not proved.
//!
//! The crate knows no machine register and no high form.
#![tactic(auto)]

mod choosing;
mod flags;
mod making;
mod paying;
mod program;
mod residents;
mod suiting;
mod ways;

pub use program::promoted;
pub use residents::Resident;
