//! Claims by the numbers of the source: those on an image, renumbered for its report, and the report's lines of functions and marks.
//!
//! The layout names a loop by its number in the program that was laid; a report names it by that of the source, which are
//! numbered from 1 on, and by the factor that says how many of its starts are one. Where a pass left marks that no kept run
//! passes, each of their addresses has a claim, with the loop and the factor of the mark. And the restrictions of the source are
//! put in. Nothing else changes. The copy lines of a report have the functions of the source and then its markers, in its order, each with the
//! addresses of all of its copies; and it has one share for each range of code, which the function has that its opening mark names.
//!
//! Proved: [`by_source`] gives the claims that `specs/Named` defines, from the lists of the addresses at which marks stand
//! ([`places_at`]), and [`copy_lines`] and [`shares_of`] the lines that `specs/CopyLines` and `specs/Shares` define; the addresses of a copy line come to
//! what those of each copy do (`proofs/Counting`). By laws without bodies nothing that is known of the claims gets lost: the image has the same flow system but for
//! these ([`systems_are_same`]), or none for the same reason ([`none_is_bad`], [`no_code_is_same`]); a search can be made in it where
//! it could be made before and the restrictions come to little ([`bounds_are_same`]), and a run that visits none of the addresses and
//! keeps the restrictions keeps the claims as it keeps those ([`runs_keep_same`]).
//!
//! The crate knows no file, no image, no search and no pass.
#![tactic(auto)]

mod copies;
mod laws;
mod naming;
mod nevers;
mod places;
mod sharing;

pub use copies::copy_lines;
pub use laws::{bounds_are_same, no_code_is_same, none_is_bad, runs_keep_same, systems_are_same};
pub use naming::by_source;
pub use places::places_at;
pub use sharing::shares_of;
