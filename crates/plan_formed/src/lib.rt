//! The plan of a source is a program in the high form, within the budgets of passes.
//!
//! The typed tree that the rules of a source give keeps to what its plan asks of it (`specs/Placed`, `Units`): it is no larger and no deeper than the source,
//! conversions that C implies stand alone, loops and markers are numbered in the order of the source, jumps stand where they may, calls go to lower ranks,
//! and there are as many bounds and names of markers as loops and markers. `specs/Checked` says which programs can be planned: their sources fail no rule,
//! are within the limits and at most 256 deep, and have facts.
//!
//! Proved in `proofs/`: such a plan is all that the type `High` keeps (`Planned`); it has at most six operations for each node of the source's tree
//! (`Operations`), weighs at most 16 times what a run of `main` executes at most, and reaches no mark more often than that (`Weights`): no mark may be
//! reached more often than nodes of the source are executed at most, as the bounds of its loops allow (`ReachedPrograms`). The plan of a function needs no
//! more temporaries than its tree has nodes (`specs/Framed`); so frames and local arrays take at most 524,288 bytes where scalars live in the frames of
//! their functions (`Memory`): the source's own objects take at most half of that (`Growing`, `Sums`). Each of the facts' bounds is less than 2^31, fillings
//! included, since an array has at most 262,144 elements (`Bounds`); so a loop has room for one start more.
//!
//! Proved too, by a call with an empty body: [`plans_have_elements`], that the arrays of the plan have elements (C11 6.7.6.2; `specs/Elements`).
//!
//! This crate knows no meaning, neither of the source nor of the high form.
#![tactic(auto)]

mod laws;

pub use laws::plans_have_elements;
