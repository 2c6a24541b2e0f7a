//! The parser: from tokens to the one tree that they are the spelling of (C11 6.5 to 6.9).
//!
//! It is the machine of `parse_grammar`, one step a token, with the depth of each part beside it. Proved: the
//! answer is a well-formed tree whose spelling is the tokens, with at most one node more than there are
//! tokens, and there is no other. A list of tokens is refused only where it is no spelling, at the least
//! token that makes it so, or where what it has begun is more than 256 nodes deep; so where there is a
//! tree of such a depth, only memory can be wanting. The tokens are gone over twice: one pass numbers
//! their names, the other takes the steps.
//!
//! This crate knows nothing of how a source is cut into tokens, nor of types.
#![tactic(auto)]

mod fault;
mod parser;
mod read;
mod step;
mod unit;

pub use fault::ParseFault;
pub use parser::parse;
