//! A kept run of a source is a good run of its program in the high form.
//!
//! `specs/` says what a state of the source and one of the high program have in common (`Meets`), which expressions and statements a plan serves
//! (`ExpressionFits`, `StatementFits`), what the code of an expression does (`Claims`) and how that of a statement ends (`Flows`); which functions serve
//! (`Serves`): their parameters live where a call puts them, their bodies fit, and the high function is the plan of the source's; and what a kept run of a
//! source shows (`Kept`): its value, its output and its counts.
//!
//! Proved in `proofs/`, from the inside out: wherever an expression has a value, its code comes to the same value in a state that meets the one behind it,
//! whatever the calls of functions do (`Expressions`, `Holding`); wherever a statement ends well, its code ends in the same way in such a state
//! (`Continuing`); a call of the source that doesn't stop gives its value, its world and its counts in the high program, however deep calls nest (`Calls`);
//! and where the world of the high program meets the source's at first, and its functions serve, each kept run is a good run that shows the same (`Main`).
//!
//! This crate has no code. It knows no layout of a whole program, no types, and nothing of memory.
#![tactic(auto)]
