//! The claims of a report: those on the image by the loops of the source, and those on marks to which no run comes.
//!
//! `specs/Handed` says which these are: the claims on the image by the loops of the source, and those on never marks. Proved, by a
//! call with an empty body: no claim on a never mark is bad by itself ([`nevers_are_sound`]), since a mark stands where
//! instructions do, its addresses ascend, and no two marks share one. `proofs/Places` and `proofs/Standing` have that for all marks.
//!
//! The crate knows no search and no report.
#![tactic(auto)]

ghost use Rattle.compile_source_claims.specs.Handed.{NeversAreSound};

/// No claim on a never mark is bad by itself.
pub fn nevers_are_sound()
    ensures { NeversAreSound }
{}
