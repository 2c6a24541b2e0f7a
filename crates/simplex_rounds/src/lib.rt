//! Rounds of the search under facts (Bland 1977, the simplex method over whole numbers; Dantzig and Wolfe 1960, columns by
//! their prices): weights of columns are sought that add up to 1, keep the facts and have the greatest weighted value.
//!
//! A column has a value and a total for each fact, its left side less its right one. [`round`] begins with the artificial
//! variable and the slacks, and makes the pivots of `simplex_tables`. Its last table says the multipliers of facts as dual
//! values, and the weights of columns (Schrijver 1986, linear programming duality): an objective's row has, at the slacks of a
//! fact, its multiplier over the objective's own number. Both are taken without a common divisor ([`second_multipliers`]), or over 1
//! and so large that a column of any value loses by a total above 0 ([`first_multipliers`]). A row that a column owns has its weight
//! ([`weights`]), and these have a least common denominator ([`denominator`], [`numerator`]).
//!
//! Proved: how many pivots a round makes, and how it ends, are exactly those of the definitions; and so are multipliers and weights,
//! where none is answered exactly where one of the numbers, times one more than the number of loop claims, passes 2^44.
//!
//! That a round's end is an optimum, or shows that no weights serve, is `simplex_laws`. The crate knows nothing of
//! flows, systems and certificates, and of where columns come from.
#![tactic(auto)]

mod limits;
mod pricing;
mod rounding;
mod starting;
mod weighing;

pub use limits::LIMIT;
pub use pricing::{Multipliers, first_multipliers, round_value, second_multipliers};
pub use rounding::round;
pub use starting::Side;
pub use weighing::{Weight, denominator, numerator, weights};
