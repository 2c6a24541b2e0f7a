//! The report on the image of a source: what is told of the source, the bound of the image's flow system, and both together; and
//! what items gain by its flow.
//!
//! Proved: [`tell`] gives the copy lines of functions and markers and the claims that are handed on, with those that the source's
//! restrictions make over the addresses of these lines; [`find`] the bound of the image's flow system under these claims, with a
//! certificate that is accepted and the columns of its search, and its shares; [`joined`] the report of both, whose numbers have
//! the ranges of their types. By the law [`flows_visit_few`] the flow which the certificate of a report lists is at the addresses
//! of each item less than 2^100 times, over its unit: the amounts of all moves add up to at most the unit times the weight of the
//! program (`claims_bounds`), and the addresses of an item rise, so that no move is counted twice. [`gains_by`] answers the gains
//! of items by such a flow.
//!
//! The crate knows no text, no choice, and not what is promised of a report.
#![tactic(auto)]

ghost use Rattle.compile_report.specs.Visits.{FlowsVisitFew};

mod finding;
mod gaining;
mod joining;
mod restricting;
mod telling;

pub use finding::{Found, find};
pub use gaining::gains_by;
pub use joining::joined;
pub use telling::{Told, tell};

/// A listed flow is at the addresses of an item less than 2^100 times.
pub fn flows_visit_few()
    ensures { FlowsVisitFew }
{}
