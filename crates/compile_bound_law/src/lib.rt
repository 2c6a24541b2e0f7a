//! Why the image of a source has a flow system, and a greatest flow that the search finds.
//!
//! Proved, by calls with empty bodies: [`made_can_be_named`], that the loops of its claims and of its never marks can be named by
//! those of the source; [`made_have_systems`], that under the claims that are handed on nothing but memory can be wanting for its
//! flow system: no claim is bad, and what is reached is code; and [`made_can_be_bounded`], that the greatest flow of that system
//! can be searched for. Restrictions stand over the addresses of copy lines: these are aligned, and no loose flow visits those of a
//! line together more often than the bounds of loops let the source execute nodes (`proofs/Lines`), so that the sides of
//! restrictions come to little (`proofs/Restrictions`).
//!
//! The crate knows no reports, and not how an image is made.
#![tactic(auto)]

ghost use Rattle.compile_bound_law.specs.Laws.{MadeCanBeBounded, MadeCanBeNamed, MadeHaveSystems};

/// The loops of the claims can be named by those of the source.
pub fn made_can_be_named()
    ensures { MadeCanBeNamed }
{}

/// Nothing but memory can be wanting for the flow system.
pub fn made_have_systems()
    ensures { MadeHaveSystems }
{}

/// The greatest flow can be searched for.
pub fn made_can_be_bounded()
    ensures { MadeCanBeBounded }
{}
