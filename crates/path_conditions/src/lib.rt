//! When a search for the greatest flow can be made, as definitions.
//!
//! `specs/Bounding`: without restrictions. `specs/Searching`: under restrictions. `specs/Natural`: facts of numbers that aren't
//! negative, and what their sides come to. `specs/Walking`: what the walks of a search under restrictions rest on, which
//! follows from the conditions; `proofs/Holding` has the first steps to that. The searches are `path_search` and
//! `path_enum`, and the tests of what they rest on `can_bound` and `can_search`; who only has to meet these conditions
//! stands on them, and not on a search.
#![tactic(auto)]
