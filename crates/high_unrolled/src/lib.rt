//! Loop unrolling, as a definition: a program in the high form whose innermost loops are unrolled by a factor, and why it keeps the
//! law of passes.
//!
//! Each innermost loop becomes the starts that are left over, and then a loop whose body is so many starts as the factor says;
//! of a loop that makes fewer starts than the factor only its starts remain, and a mark behind them to which no good run comes.
//! Loops are taken in order, while the budget of operations and that of depth allow; a loop that makes no start never grows the
//! program, so it is always taken.
//!
//! `specs/` has starts of a body (`Starts`), a loop by a factor (`Factor`), what statements become (`Unrolling`), the program and
//! its copies (`Programs`), and what is promised beside the law of passes (`Promise`). Proved in `proofs/` (`Lawful`): that
//! program keeps the law of passes, and it is in the high form. An innermost loop that is left as it was is one whose unrolling in
//! the new program would pass a budget, and a factor of 1 changes nothing.
//!
//! `specs/Serving` says when an outcome, a call and a statement serve for another, whose marks it may have several times: wherever
//! the first is good, the second is the same. The second has labels on its marks, which say of which marks of the first they are
//! copies; a mark without a label is passed by no good run. Proved in `proofs/` (`ServingFollowing`, `ServingRunning`): what each
//! construct makes of parts that serve serves, calls serve where functions do, and where each function of a program stands for the
//! one with its number, each good run is a good run of it, with the same output and value, and each count is the sum of the counts
//! of the copies.
//!
//! This crate has no code, and knows no other pass, no source language and no machine.
#![tactic(auto)]

pub mod made;
