//! Loop unrolling: the pass that makes several starts of an innermost loop one.
//!
//! Each innermost loop becomes some starts of its body, and then a loop of as many at a time as the factor says, while the budgets
//! allow. `high_unrolled` defines the program that is made; this crate makes it, in one walk over the old one (`walk`), whose
//! state `specs/View` has without where it lies in memory. Each statement of the old and of the new program is visited a few times.
//!
//! Proved: [`Unroll`] makes that program, or memory ran out, and keeps the law of passes: each innermost loop, in order and while
//! the budgets allow, becomes some starts and a loop of as many at a time as the factor says, and one of fewer starts these
//! alone, with a mark behind them to which no good run comes. An innermost loop that is left as it was is one whose unrolling in
//! the new program would pass a budget, and a factor of 1 changes nothing.
//!
//! This crate knows no other pass but that which changes nothing, no source language and no machine.
#![tactic(auto)]

mod factor;
mod listing;
mod making;
mod measure;
mod remarking;
mod spreading;
mod unroll;
pub mod walk;

pub use unroll::Unroll;
