//! The law of plans: what the plan of a source keeps of it.
//!
//! `specs/Plans` says what that is. Proved in `proofs/Law` of each typed program that has facts and is at most 256 deep: its plan is a program in the high
//! form; each kept run of the source is a good run of it with the same output, value and counts; the marks and loops of the source are those of the plan,
//! each once, and loops have their starts; what the bounds allow the plan to do is at most 16 times what they allow the source to do; and the plan is within
//! the budgets of passes. Of such programs `proofs/` have besides:
//!
//! - a source's program and facts, as they are read, are such ones (`Sources`), also where the facts have bounds that are derived: these are bounds for
//!   loops without a pragma, and some that a pragma could give (`DerivedForms`, `Unbounded`);
//! - what fits a layout keeps to the frame of its function (`Framed`), where the objects that live at its entry do (`Entry`), so that frames and local
//!   arrays of the plan take at most 524,288 bytes (`Bytes`);
//! - the plan is whole where the constants of the program are words (`specs/Words`): the constants of its code are words (`WholeExpressions`,
//!   `WholeStatements`), the labels of its switches and the elements of its lists are fewer than words count (`Counting`), and its arrays have addresses and
//!   first values that are words (`Constants`, `Objects`, and in the end `Whole`).
//!
//! This crate has no code.
#![tactic(auto)]
