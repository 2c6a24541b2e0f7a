//! Limits of the claims on an image: how many there are at most.
//!
//! Proved, by a call with an empty body: [`claims_are_few`], which says how many claims there are before they are made. An image
//! has no more exits and lines of regions than instructions, no more loops than the program has operations, and no more addresses
//! of marks, however often these are copied; beside the claims there are those on never marks and on at most 32 restrictions.
//! What texts have on them rests on the same counts.
//!
//! The crate knows no report.
#![tactic(auto)]

ghost use Rattle.compile_claim_limits.specs.Laws.{ClaimsAreFew};

/// What is made has few claims, with those on never marks and on restrictions.
pub fn claims_are_few()
    ensures { ClaimsAreFew }
{}
