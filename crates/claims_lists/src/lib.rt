//! Makes the lists of a laid program: the ranges of its code, the places of its marks, the claims of its loops with
//! their shapes, and the spans of its functions.
//!
//! `order` puts functions in the order of their addresses, `laying` reads a layout, and one file makes each list.
//!
//! Proved: the lists are those that `claims_definition` defines of each laid program that has this code and
//! layout, or memory ran out. Time and memory are linear in blocks, loops and items.
//!
//! The crate knows no instruction, and not what an item touches.
#![tactic(auto)]

mod laying;
mod loops;
mod marks;
mod order;
mod ranges;
mod shapes;

pub use laying::{Laying, base_of, items_of};
pub use loops::loop_claims;
pub use marks::{Marked, marked_places};
pub use order::by_address;
pub use ranges::{CodeRange, code_ranges};
pub use shapes::{shapes_of, spans};
