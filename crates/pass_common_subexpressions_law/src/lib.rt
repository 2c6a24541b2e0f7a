//! The law of common subexpression elimination: what a program keeps that doesn't load or compute again what a register holds.
//!
//! Within a block a register may hold what a load would give, because the element was loaded into it or stored from it and neither
//! was changed since: then a copy does what the load does (`specs/Facts`, `specs/Reloads`). How that is found is no matter here.
//!
//! Proved, each by a call with an empty body: [`reloads_run`], that each good run on bytes is a good run of the other program, step by
//! step;
//! [`reloads_are_formed`], that it keeps to the low form; [`reloads_cost_no_more`].
//!
//! The crate knows no machine register and no high form.
#![tactic(auto)]

mod laws;

pub use laws::{reloads_are_formed, reloads_cost_no_more, reloads_run};
