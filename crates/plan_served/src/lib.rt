//! Storage of the plan of a well-typed program: each object has a place that fits it, and source and plan begin with the same values.
//!
//! `specs/` says what a layout says of the names that are seen at a place (`Seen`) and of the objects that a function declares (`Places`); where the objects
//! of a program live, whose they are, to which nothing is stored, and what calls of its functions hand over (`Layouts`); and what an object of file level
//! holds: its first values, with zeros behind them (`Rows`).
//!
//! Proved in `proofs/`, from the rules alone: an expression at which no rule fails fits the layout of its function, and its value is of its type's kind
//! (`Expressions`); what a block declares is seen behind its declaration, and its initial values fit (`Objects`); loops have the numbers under which the
//! facts list their bounds (`Loops`); statements at which no rule fails fit (`Statements`). No two objects of a well-typed program live at one place
//! (`Placed`, and in the end `Trees`), and what file level declares is seen from each function (`Statics`). So each function is served by its plan
//! (`Programs`): calls hand over what the definition takes (`Known`), parameters live where the plan has them (`Params`), and loops have the bounds of their
//! sites (`Sites`). And they begin alike: initial values of file level are constants of their objects' kinds (`Constants`, `Forms`, `Ranges`), a run leaves
//! them in their objects (`FirstObjects`, `Beginning`), the arrays of the plan hold the same words at first (`Arrays`), and main takes nothing (`Begins`).
//!
//! This crate has no code.
#![tactic(auto)]
