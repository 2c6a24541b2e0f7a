//! The law of strength reduction: what a program keeps that reaches elements through pointers that step.
//!
//! Of the registers of a function something may be known as each of its blocks begins (`specs/Knowing`). Where it is known, an
//! instruction may stand in place of one that does the same, as an access through a pointer in place of one with an index, and between
//! the instructions others may write registers that the function doesn't name (`specs/Steps`). What is known, and how it is found, is no
//! matter here.
//!
//! Proved, each by a call with an empty body: [`steps_run`], that each good run is a good run of the other program with the same value
//! and the same world; [`steps_are_formed`], that it keeps to the low form; [`steps_pass_marks`].
//!
//! The crate knows no machine register and no high form.
#![tactic(auto)]

mod laws;

pub use laws::{steps_are_formed, steps_pass_marks, steps_run};
