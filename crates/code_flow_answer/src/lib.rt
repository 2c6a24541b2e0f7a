//! What a path search answers: a certificate, its kind, and the columns that were found on the way
//! (Li and Malik 1995, implicit path enumeration).
//!
//! The types alone, as a report needs them, so that reports stand on no search. The search is
//! `path_search`.
#![tactic(auto)]

mod bounded;

pub use bounded::{Bounded, Column, Kind};
pub use code_flow_system::{LoopShape, Span};
