//! A source from a number, for trying the compiler: that many functions with a loop each, and a
//! function `main` that calls each of them once. It is the source that `make` writes.
//!
//! Proved: [`write`] gives the text that `specs/Text.antt` defines, and it is short where the number
//! is small ([`sources_are_short`]). Want of memory alone is left open.
//!
//! Of each number from 1 to 100 `proofs/` have that the text is a source, and that its run on the
//! empty input is done (`Sources`): the tokens of a text that is put together of pieces (`Tokens`),
//! the tree that they spell and its typed tree (`Trees`, `Typed`), its call ranks and flow facts
//! (`Ranks`, `Whole`), and its run (`Runs`).
#![tactic(auto)]

mod laws;
mod writing;

pub use laws::sources_are_short;
pub use writing::write;
