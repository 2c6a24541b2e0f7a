//! The nodes that a parser makes of what it has begun.
//!
//! Each call makes one node over finished parts that are less than 256 nodes deep, and knows how deep
//! the new part is.
//!
//! This crate knows nothing of tokens, nor of which state follows another.
#![tactic(auto)]

pub mod declaration;
pub mod expression;
pub mod statement;
