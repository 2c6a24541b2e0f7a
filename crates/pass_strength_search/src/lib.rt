//! The search of strength reduction: pointers that step with the induction variables of loops, in place of addresses found anew for
//! each access (Cocke and Kennedy 1977).
//!
//! The loops of a function are gone through, the inner ones first, so that pointers of outer ones serve to set those of inner ones
//! (`stepping`). What pays is chosen by the bounds of loops, by what dies with it (`counts`, `trial`, `choosing`) and by how many
//! registers are left; then the new code is written down (`rewriting`), and a proposal is made of it with the facts by which it can be
//! followed (`proposing`). What a loop offers is found by `pass_induction_variables`, the facts by `pass_dataflow_solution`.
//!
//! Nothing is proved of it but that it is safe and ends: any proposal is right that is checked.
//!
//! The crate knows no relation of programs and no checker.
#![tactic(auto)]

mod choosing;
mod counts;
mod proposing;
mod rewriting;
mod stepping;
mod trial;

pub use proposing::proposed;
