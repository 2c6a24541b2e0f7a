//! Why the plan of a source keeps its runs, counts and bounds.
//!
//! `specs/Loops` has the loops of a source, fillings included, with the numbers and the bounds that they have in the plan. Proved in `proofs/`: these are
//! the loops of the plan, each once (`LoopPrograms`), and with the numbers that they have in the source they are those of the source (`LoopSources`).
//!
//! `specs/Sources` says what a source shows, counts and bounds, as passes see programs in the high form, and what becomes of its marks and loops in its
//! plan. Proved: where the plan keeps to the form, its loops are numbered as the source's, and each kept run is a good run of it, the plan carries the
//! source, with these copies (`Carried`); what a source shows is what it means (`Meanings`); and what passes say of the bounds of its loops is what its
//! facts say of their starts (`Bounds`).
//!
//! This crate has no code.
#![tactic(auto)]
