//! What each line of a report says, read from its words.
//!
//! A line is judged before it is read: `fit` and `are_in_range` of `report_words` test its words
//! against the shapes of its kind (`specs/LineShapes.antt`, and `LineLists` and `Sums` where there
//! may be any number of words), and its order among the lines is tested between the two. Each call
//! here then answers what the words say.
//!
//! Proved: the line that `report_text` writes of the answer has exactly these words. Want of memory
//! alone is left open. The crate doesn't know in which order lines stand.
#![tactic(auto)]

mod facts;
mod fixed;
mod kinds;
mod labels;
mod lists;
mod sums;
mod values;

pub use facts::{are_terms, are_terms_in_range, compare};
pub use fixed::{cycles, exit, flow, loop_claim, never, potential, region, scale, share, unit};
pub use kinds::{plain_kind, spent_kind, wide_kind};
pub use lists::{are_addresses, are_integers, are_small, column, copy};
pub use sums::{is_term, is_term_in_range, sum};
pub use values::integer;
