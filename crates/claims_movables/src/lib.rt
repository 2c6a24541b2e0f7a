//! Makes the list of what may be moved into the scratchpad: the functions of a laid program, and its arrays that aren't
//! local.
//!
//! `near` counts the accesses of arrays near x3 or beside x7, `sizes` the bytes of code, `alone` has the accesses that touch one array
//! alone, `functions` and `arrays` make the items.
//!
//! Proved: [`items`] makes the functions and then the arrays, each as `claims_definition` defines it of each laid program that
//! has this code and layout. Memory may run out, and a number of 2^32 or more counts as that. Time and memory are linear
//! in items, instructions and the arrays of claims.
//!
//! The crate knows no gains and no choice.
#![tactic(auto)]

mod alone;
mod arrays;
mod functions;
mod near;
mod numbers;
mod sizes;
mod whole;

pub use whole::items;
