//! The meaning of a source (C11 5.1.2.3, with the choices of this profile), and the state in which it runs.
//!
//! `specs/State` has the state of a run and what is done to it, `specs/Values` the expressions,
//! `specs/Statements` the statements with the bounds of their loops, `specs/Runs` calls and the whole run.
//! The meaning is a total function: by recursion on the tree, on how deep calls may nest, and on the body starts
//! that are left of each loop.
//!
//! Proved: each method of [`State`] does what `specs/State` says, without a copy of the state.
//!
//! This crate knows nothing of the walk over a tree: that stands above.
#![tactic(auto)]

pub mod cells;
pub mod outcome;
pub mod source_run;
pub mod state;

pub use cells::Cells;
pub use outcome::{Change, Flow, Found, Operands, Stop, Target};
pub use source_run::{SourceRun, Unkept};
pub use state::{State, need, settle, truth};
