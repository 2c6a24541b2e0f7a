//! What a parser has begun, and its parts that are finished.
//!
//! A [`begun::State`] is a state of the machine of `parse_grammar`, with the depth of each finished part
//! beside it. The lists of finished parts grow here, and parts are boxed here.
//!
//! This crate knows nothing of tokens, nor of which state follows another.
#![tactic(auto)]

pub mod begun;
pub mod boxed;
pub mod list;
pub mod part;
pub mod refusal;
