//! What is visible at each place of a source at which no rule fails.
//!
//! `specs/` says what is visible later in a source, against what is visible before (`Growing`), and what the first parts of a
//! unit define (`Fronts`, `Units`). Proved in `proofs/`, from the rules alone: what was numbered or declared keeps its number and
//! its type (`Growing`), a function is known by the type of its definition (`Known`), and each one that is called is a function
//! of the unit (`Calls`).
//!
//! This crate has no code, and knows no meaning.
#![tactic(auto)]
