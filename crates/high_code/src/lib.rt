//! Code in the high form, put together from pieces.
//!
//! `specs/Code` joins pieces, and says which variables a piece assigns. Proved in `proofs/`: joined pieces do what one does
//! and then the other, and a variable that a piece doesn't assign keeps its value.
//!
//! This crate knows no source language and no pass.
#![tactic(auto)]
