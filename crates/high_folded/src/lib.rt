//! What folding makes of a program in the high form, and why it is lawful.
//!
//! An operator over constants becomes the constant that it computes, and a choice whose test is a constant becomes the way
//! that it takes; the other way is left out, with its loops and marks. Left out too are conversions of what their kind keeps,
//! operators with a neutral constant, and conversions before a store that makes them anyway. Nothing else is changed:
//! statements behind a leave or a return stay. `specs/Folded` defines the program, `specs/Listed` what becomes of its marks
//! and loops, `specs/Done` that nothing is left to compute.
//!
//! `specs/Ranges` says which expressions have only values that a kind of elements keeps as they are (loads of narrow arrays,
//! conversions, masks, remainders, tests), which have only words, and which constants are neutral on a side of an operator;
//! `specs/Kept` that the elements of arrays are what the kinds of these arrays keep. A run that starts from such arrays keeps
//! them so (`proofs/Keeping`, `Starting`), and what the forms of expressions tell is right there (`Fitting`, `Forms`, `Neutral`,
//! `Stores`).
//!
//! Proved in `proofs/`: a folded program has the same runs, keeps to the high form, and is lawful with these copies, as
//! `high_pass` asks of each pass (`Lawful`).
//!
//! This crate has no code.
#![tactic(auto)]
