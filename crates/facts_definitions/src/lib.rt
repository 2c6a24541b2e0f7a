//! What a source says of its counts: bounds of loops, markers and flow restrictions, with their definitions.
//!
//! `specs/` has them in reading order: `PragmaTexts` (the grammar of the three pragmas), `Sites` (where pragmas and
//! loops stand), `Starts` (how often a loop starts its body), `Most` (how often nodes are executed at most) and
//! `FlowFacts` (the facts of a program, or its first fault).
//!
//! This crate has types and definitions alone: who computes them stands above.
#![tactic(auto)]

pub mod facts;
pub mod site;

pub use facts::{Bounds, Derived, Facts, FlowFault, Restriction, Starts, Term};
pub use site::Site;
