//! Tables of rows of whole numbers, and the pivots of the simplex method by the least-number rule (Bland 1977, over whole numbers).
//!
//! A row is an equation: its numbers times those of a solution add up to 0. [`turned`] takes a variable out of a row by
//! means of another one, and divides the row by the greatest common divisor of its numbers, so that the numbers stay as
//! small as they can. A table has its rows, each solved for a variable of its own, and the rows of two objectives. While variable
//! 0, the artificial one, owns a row, the first objective is followed, and then the second. [`pivots`] takes the least variable in
//! that improves the objective, and leaves the row of the least quotient, of equal ones that of the least variable, until
//! none improves. Quotients are compared exactly.
//!
//! Proved: the new row is exactly that of the definition, over whole numbers without end, and none is answered exactly where one
//! of the products passes 2^120; and how many pivots are made, in which phase they end and with which table, or that a product of
//! the last one passes 2^120, are exactly those of the definitions. Nothing wraps. `proofs/RowLemmas` has what the crates above
//! cite: what solves both rows solves the new one, and back; and which numbers of the new row are 0, or aren't negative.
//!
//! The crate knows nothing of what rows stand for. That its last table is an optimum is `simplex_laws`.
#![tactic(auto)]

mod choosing;
mod pivoting;
mod rows;
mod running;
mod table;

pub use choosing::{Choice, right};
pub use rows::{gcd, reduced, turned};
pub use running::{Ended, Ending, MOST_PIVOTS, Outcome, pivots};
pub use table::Table;
