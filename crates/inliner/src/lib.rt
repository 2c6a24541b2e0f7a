//! Inlining: calls become the bodies of their functions.
//!
//! `specs/` has what a body becomes in the frame of a caller (`Moving`), what a call becomes (`Opening`), which calls the
//! budgets allow (`Budgets`), the walk over a body (`Walking`) and the whole program (`Inlining`).
//!
//! Proved of [`Inline`]: it keeps the law of a pass, and answers the program that `Inlining` defines. A call that is left is
//! one of a function of more nodes than the limit, or one that would pass a budget if it were opened in the answered
//! program, so that a limit of 0 changes nothing (`specs/Sites`).
//!
//! Sizes of bodies are counted once for each function that changes, so that a call which is left costs no walk over a body.
//! Functions are gone through until no call is left that may be opened; mostly that is once.
//!
//! This crate knows no source language and no other pass.
#![tactic(auto)]

mod inline;
mod inlining;
mod measuring;
mod moving;
mod opening;
mod order;
mod settling;
mod sizes;
mod used;
mod walking;

pub use inline::Inline;
