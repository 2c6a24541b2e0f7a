//! The meaning of a source is undefined, if at all, by one of the events that the language names.
//!
//! The meaning is a total function, and answers rule 0 where an object, an element or a function isn't there, or where
//! calls nest deeper than ranks say. Proved here: the typed program of a source never comes to that, on any input.
//! `specs/Scoped` says what its tree keeps to: each name is that of an object or function that is there, calls hand over
//! what is taken, and lists fit their arrays.
//!
//! This crate runs nothing: its law is the contract of a function without a body.
#![tactic(auto)]

ghost use Rattle.std.specs.Prelude.{ℕ, List};
ghost use Rattle.types_tree.specs.Tree.{Program};
ghost use Rattle.facts_definitions.specs.declared.facts.Facts.{Facts};
ghost use Rattle.types_calls.specs.Calls.{graph_of};
ghost use Rattle.types_calls.specs.Chains.{AreRanks};
ghost use Rattle.types_seen.specs.Units.{HasTree};
ghost use Rattle.meaning_semantics.specs.Runs.{meaning};
ghost use Rattle.meaning_laws.specs.Told.{IsTold};

/// What a run of a typed program with its ranks is undefined by is one of the rules 1 to 8.
pub fn runs_are_told()
    ensures { (names : List (List ℕ)) (program : Program) (facts : Facts) (input : List ℕ) → HasTree names program → AreRanks (graph_of program) facts.ranks.of_functions → IsTold (meaning program names facts input) }
{}
