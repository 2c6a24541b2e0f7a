//! Whether a search for the greatest flow can be made under restrictions.
//!
//! A search rests on bounds of loose flows: on their values and counts (`path_loose_fit`), and on what the sides of each
//! fact come to at their counts. [`can_search`] tests both, the sides by their numbers alone: it says yes only to facts of
//! at most 64 terms a side, with numbers from 0 to 1024. Proved: a yes is right. [`is_searchable`] is the law that such a
//! system keeps the bounds that the walks of `path_cert` ask.
//!
//! The crate knows nothing of searches.
#![tactic(auto)]

mod fit;
mod law;

pub use fit::can_search;
pub use law::is_searchable;
