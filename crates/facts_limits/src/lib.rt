//! Limits of what a source says: how long its names are, and how many restrictions it has.
//!
//! Proved, each by a call with an empty body: [`names_fit`], that the names of a source, each counted once, have no more bytes than
//! it; and [`restrictions_are_limited`], that a source which nothing refuses has at most 32 restrictions, each of at most 64 terms in
//! all, with numbers up to a million and names of functions or markers.
//!
//! Each name of a source stands in a token that says it, and no two tokens share a byte (`proofs/Sources`). `proofs/Counts` has from
//! the tree of a source how many restrictions its typed program has, each function once; `proofs/Written` how many terms the grammar
//! of pragmas takes, and how great their numbers are; `proofs/Named` that a name at which no fault is has a place among functions
//! and markers.
//!
//! The crate knows nothing of what is made of a source.
#![tactic(auto)]

mod laws;

pub use laws::{names_fit, restrictions_are_limited};
