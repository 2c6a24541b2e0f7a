//! Names of functions and markers: each one that a source counts has a name of the language.
//!
//! Proved, by a call with an empty body: [`counted_are_named`]. The facts of a source number its functions and markers by names; each of
//! these numbers stands for a name of the source, which has letters, digits and underscores alone, and begins with no digit.
//!
//! `proofs/Trees` has from the tokens of a source that each name of its tree stands in its list of names, `proofs/Sites` the same of the
//! functions and markers of its typed program, `proofs/Markers` that the grammar of pragmas takes its names from that list, and
//! `proofs/Naming` that no two functions have one name.
#![tactic(auto)]

ghost use Rattle.compile_names.specs.Laws.{CountedAreNamed};

/// Each function and marker of a source has a name.
pub fn counted_are_named()
    ensures { CountedAreNamed }
{}
