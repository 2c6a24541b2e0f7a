//! The flow facts of a program: bounds of loops, markers, restrictions, and how often its nodes are executed at most;
//! and restrictions over the places in a machine program where functions and markers stand (Kirner 2003).
//!
//! Proved: `facts_with` answers the facts that `facts_definitions` defines, or exactly the first fault; `translate` puts in place
//! of each name in a restriction the sum of its places.
#![tactic(auto)]

mod gathering;
mod known;
mod listing;
mod making;
mod places;
mod placing;
mod sites;

pub use facts_definitions::{Facts, FlowFault, Restriction, Term};
pub use making::{facts, facts_with};
pub use places::{AddressFact, Places};
pub use placing::translate;
