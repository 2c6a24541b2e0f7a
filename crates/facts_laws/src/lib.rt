//! One source, one meaning: laws of what a source is read as.
//!
//! `facts_front` says what a source is read as by relations: some tokens, some tree, some ranks. Proved
//! here: there is one of each. So a source of at most 1,048,576 bytes has one typed program with
//! facts, or one refusal, and never both, where bounds of counting loops are derived and where they
//! aren't.
//!
//! This crate reads nothing: each law is the contract of a function without a body.
#![tactic(auto)]

ghost use Rattle.std.specs.Prelude.{◌≡◌, ◌≤◌, ℕ, Bool, List, length};
ghost use Rattle.c_tree.specs.Tree.{TranslationUnit};
ghost use Rattle.types_tree.specs.Tree.{Program};
ghost use Rattle.facts_definitions.specs.declared.facts.Facts.{Facts};
ghost use Rattle.facts_front.specs.declared.refusal.Refusal.{Refusal};
ghost use Rattle.facts_front.specs.Fronts.{RefusesSource};
ghost use Rattle.facts_sources.specs.Sources.{HasUnit, IsSourceBy};

/// A source is the spelling of one tree, whose names are numbered in one way.
pub fn one_unit()
    ensures { (source : List ℕ) (names others : List (List ℕ)) (unit other : TranslationUnit ℕ) → HasUnit source names unit → HasUnit source others other → (names ≡ others) × (unit ≡ other) }
{}

/// A source has one typed program, with one list of facts, where bounds are derived and where they aren't.
pub fn one_source()
    ensures { (derive : Bool) (source : List ℕ) (names others : List (List ℕ)) (program other : Program) (facts more : Facts) → IsSourceBy derive source names program facts → IsSourceBy derive source others other more → (names ≡ others) × (program ≡ other) × (facts ≡ more) }
{}

/// A source that has a typed program with facts is not refused.
pub fn not_both()
    ensures { (derive : Bool) (source : List ℕ) (names : List (List ℕ)) (program : Program) (facts : Facts) (refusal : Refusal) → length source ≤ 1048576 → IsSourceBy derive source names program facts → RefusesSource derive source refusal → ⊥ }
{}

/// A source is refused for one cause, at one place.
pub fn one_refusal()
    ensures { (derive : Bool) (source : List ℕ) (refusal other : Refusal) → length source ≤ 1048576 → RefusesSource derive source refusal → RefusesSource derive source other → refusal ≡ other }
{}
