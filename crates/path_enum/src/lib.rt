//! The greatest flow of a system, as a certificate (Li and Malik 1995, implicit path enumeration; Dantzig and Wolfe 1960, column
//! generation).
//!
//! [`loops_fit`] says whether loops and functions are nested as a search by loops asks, and [`bound`] gives the certificate
//! of the greatest flow, under restrictions as well. It begins with the greatest flow without them. A first search guesses
//! multipliers in floats and asks the walks there, until no column improves, and then guesses a flow of the value that is bounded; a
//! test decides whether it is one. Where it isn't, rounds follow over whole numbers: each weights the columns that are there, by
//! pivots, and asks the walks at the round's multipliers for another one. They end where the answer doesn't improve: the weighted
//! columns are then the greatest flow. Either search ends earlier where an answer shows that there is no flow; and the rounds end,
//! with the least bound that was found, where a number is too wide, or 200 columns or 10,000 pivots don't suffice.
//!
//! Proved: the certificate is in form and accepted, it is greatest with a listed flow or empty where the kind says so, and a
//! bound alone has its cause, and no certificate is less that was made at the multipliers of a column, or at those that were guessed.
//!
//! What [`loops_fit`] promises stands at its own place, `path_fit`; what is answered is of `code_flow_answer`, on which reports stand without
//! standing on a search. Beside them stand the laws of the best flow at prices of both signs ([`best_flows_are_found`] and
//! [`fact_flows_are_best`]), by which the search under facts goes.
//!
//! The crate knows nothing of images, of files, and of how claims were found.
#![tactic(auto)]

mod asking;
mod bounding;
mod guessing;
mod marking;
mod searching;
mod stepping;
mod weighing;

pub use bounding::bound;
pub use code_flow_answer::{Bounded, Column, Kind, LoopShape, Span};
pub use path_cert::{best_flows_are_found, fact_flows_are_best};
pub use path_fit::loops_fit;
