//! The typed tree of a unit, or why it has none.
//!
//! [`Typed`] is the typed tree of a well-formed unit that is within the limits and fails no rule. It keeps
//! that, and that every call of it but those of `getchar` and `putchar` is of a function that it defines.
#![tactic(auto)]

mod checker;
mod limits;
mod outline;
mod tally;
mod typed;
mod unit;

pub use checker::check;
pub use typed::Typed;
pub use types_calls::Ranks;
