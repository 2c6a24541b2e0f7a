//! The grammar of the profile as a machine that reads a token at a time.
//!
//! The machine stands in `specs/` alone: what has begun (`Begun`), one step at a token (`Machine`)
//! and the least depth of what has begun (`Depth`). The module [`law`] says what is proved of it, each
//! law as the contract of a function without a body: it reads back each well-formed unit from its
//! spelling, so no tokens are the spelling of two units; what it reads is well formed and spelled so;
//! where it stops, no spelling goes on, and where it goes on, some spelling does.
//!
//! This crate knows nothing of the code that parses.
#![tactic(auto)]

pub mod law;
