//! What a search under restrictions answers, as definitions, and flows that keep restrictions together.
//!
//! `specs/Searched`: columns that are searched, each a best answer that improves on the round over those before it (Dantzig and Wolfe
//! 1960; Bland 1977). `specs/Causes`: why a search ends without the greatest flow. `specs/Kinds`: what an answer promises
//! (`IsFound`). The search itself is `path_enum`; who only names what it promises stands on these definitions, and not on it.
//!
//! Proved, by a call with an empty body: where the facts' totals of flows of a system without its facts, so often each, keep the facts
//! together, the flows are one of the system with its facts, over as many units, and its value is theirs ([`mixes_are_flows`]).
//!
//! The crate knows nothing of where flows and weights come from.
#![tactic(auto)]

mod laws;

pub use laws::mixes_are_flows;
