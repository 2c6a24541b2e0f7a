//! The restrictions of a source as claims on an image.
//!
//! `specs/Told` says which claims a source's restrictions become, over the addresses of the copy lines of its functions and markers
//! (Kirner 2003). Proved, by calls with empty bodies: they have the form of a report's facts ([`told_are_claims`]), their sides come
//! to little where those addresses do ([`told_are_light`]), and they are kept where the source's counts violate no restriction
//! ([`told_are_kept`]).
//!
//! The crate knows no image and no stage of the compiler.
#![tactic(auto)]

ghost use Rattle.compile_restrictions.specs.Laws.{ToldAreClaims, ToldAreKept, ToldAreLight};

/// They have the form of a report's facts.
pub fn told_are_claims()
    ensures { ToldAreClaims }
{}

/// Their sides come to little where the addresses of each line do.
pub fn told_are_light()
    ensures { ToldAreLight }
{}

/// They are kept where no restriction is violated.
pub fn told_are_kept()
    ensures { ToldAreKept }
{}
