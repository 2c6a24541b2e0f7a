//! Tests of the forms in which jumps, calls and branches reach their targets, at the edges of their reach.
//!
//! A branch reaches from 4,096 bytes back to 4,092 ahead, and a JAL from 1,048,576 back to 1,048,572 ahead (RISC-V
//! unprivileged manual 2.5); the words are those of an independent assembler, clang with its integrated one for `rv32im`.
//!
//! This crate has no code but its tests.
#![tactic(auto)]

#[cfg(test)]
mod functions;
#[cfg(test)]
mod tests;
