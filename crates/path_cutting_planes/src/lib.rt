//! Multipliers of facts and weights of columns, guessed by cutting planes (Kelley 1960; Dantzig and Wolfe 1960, of which it is the
//! dual; the simplex method).
//!
//! A [`Master`] is a linear program in floats: weights of the columns that there are, which keep the facts, or pay for each fact
//! that they break. [`begun`] makes it of the column of the greatest flow without facts, [`Master::solve`] solves it from where it
//! stands, and [`Master::grows`] adds a column and says whether that improves on the solution. Its dual values are the next
//! multipliers: [`multipliers`] rounds them to whole numbers over a scale, [`simplest`] to fractions of small denominators, and
//! [`equations_of`] are whole numbers of which the columns' weights are the exact solution. What is asked lies half way between the solution and the multipliers of the least bound, as
//! long as columns are found there that improve (Wentges 1997, weighted Dantzig-Wolfe decomposition).
//!
//! Nothing is claimed of how good a guess is: who takes one has to test it. Proved: multipliers have their facts' signs and keep the
//! limit, equations are of columns that there are, and every call ends. So no clause speaks of a float.
#![tactic(auto)]

mod basis;
mod cells;
mod master;
mod nearness;
mod pricing;
mod solving;

pub use basis::{Equations, equations_of};
pub use master::{MOST_COLUMNS, Master, begun};
pub use pricing::{multipliers, simplest};
