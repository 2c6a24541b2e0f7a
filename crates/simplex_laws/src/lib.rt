//! What the end of a round of pivots says (Bland 1977; Schrijver 1986, linear programming duality).
//!
//! Proved, by calls with empty bodies: a round that ends in its second phase has weights that add up to 1, keep the facts
//! and have the round's value, and multipliers with the facts' signs; one that ends in its first phase has such
//! multipliers and a value below 0, so that no weights keep the facts; and there is always a row to leave
//! ([`rounds_end_well`]). That the method ends is not claimed: a search makes so many pivots at most.
//!
//! A table keeps through the pivots that are made of it exactly the solutions of the first one, each row solved for a variable of
//! its own, and no right side that is negative; while the artificial variable owns a row, its right side is positive. A pivot by
//! the least-number rule keeps all this ([`pivots_keep_tables`]), and where it finds no row to leave, the variable has no positive
//! number ([`no_row_is_left`]). So nothing is said of matrices: what solves the rows of the last table solves the first ones, which
//! say what weights have to keep.
//!
//! The crate has definitions and these laws. It knows nothing of flows.
#![tactic(auto)]

mod laws;

pub use laws::{no_row_is_left, pivots_keep_tables, rounds_end_well};
